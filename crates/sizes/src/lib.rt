// The sizes of document 01, each once. Code takes them from here; contracts and proofs from
// specs/Sizes.antt, under the same names.

// "Longest frame: 4 + 8 + 1,023 + 64 + 4 = 1,103 bytes": the tray, and the room of the frame's writer.
#![tactic(auto)]

pub const LONGEST_FRAME: usize = 4 + 8 + LONGEST_PAYLOAD + 64 + 4;

// "payload of 0 or over 1,023 bytes" is LENGTH; also the room that writing a payload wants.
pub const LONGEST_PAYLOAD: usize = 1023;

// "Reading wants 8,184 entries": one for each bit of the longest payload.
pub const SHEET_ROOM: usize = 8 * LONGEST_PAYLOAD;

// "Noise is told just before a frame, at 65,535, or at finish".
pub const MOST_NOISE: u32 = 65535;

// "An HPAC tag is taken modulo 43,200."
pub const TAGS: u64 = 43200;

// "The book holds one AIOU and up to 32 areas, .. six bytes each: .. 192 bytes."
pub const MOST_AREAS: usize = 32;

pub const AREA_BYTES: usize = 6;

pub const BOOK_BYTES: usize = AREA_BYTES * MOST_AREAS;

// "The kept book gets form 2 with SIOU + 1 after AIOU + 1, .. (229 bytes of room)" (document 02,
// request 5): form number, AIOU + 1 and count, a byte each, two for SIOU + 1, and seven for the 47
// bits of an area.
pub const KEPT_ROOM: usize = 5 + 7 * MOST_AREAS;

// "Log room: 4,096 bytes per frame, always enough."
pub const LOG_ROOM: usize = 4096;
