// A field's bits and the codes that it takes in one number, so that a cell of a row costs one look into a table of constants.
ghost use Rattle.std.specs.Prelude.{◌≡◌, ◌%◌};
ghost use Rattle.fields.specs.Packed.{packed_line, refuses};

// A line each, by the number of the field: its bits in the last two digits, `most` in the six before them, `invalid` in front; 0 where there is no such field.
static LINES: [u64; 108] = [
    0, // SF000
    0, // SF001
    0, // SF002
    0, // SF003
    0, // SF004
    0x1FF_0001FF_09, // SF005
    0, // SF006
    0, // SF007
    0x1_000001_01, // SF008
    0x1_000001_01, // SF009
    0x1_000001_01, // SF010
    0x3_000003_02, // SF011
    0x3_000003_02, // SF012
    0x1_000001_01, // SF013
    0x7_000007_03, // SF014
    0x7_000007_03, // SF015
    0x0_000000_02, // SF016
    0x0_000000_02, // SF017
    0xFF_0000FF_08, // SF018
    0x7F_00007F_07, // SF019
    0x3FFE_003FFE_0E, // SF020
    0x3F_00003B_06, // SF021
    0x7_000007_03, // SF022
    0x1_000001_01, // SF023
    0x7_000007_03, // SF024
    0x1_000001_01, // SF025
    0x1_000001_01, // SF026
    0x1_000001_01, // SF027
    0x1_000001_01, // SF028
    0x7FE_0007FE_0B, // SF029
    0x1F_00001F_05, // SF030
    0xFF_0000FF_08, // SF031
    0x708_000708_0B, // SF032
    0xE10_000E10_0C, // SF033
    0x7_000007_03, // SF034
    0x7_000007_03, // SF035
    0x1F_00001F_05, // SF036
    0x1F_00001F_05, // SF037
    0, // SF038
    0x7F_00007F_07, // SF039
    0x2_000002_02, // SF040
    0x2_000002_03, // SF041
    0x7_000007_03, // SF042
    0xFE_0000FE_08, // SF043
    0x1_000001_01, // SF044
    0x7E_00007E_07, // SF045
    0x7E_00007E_07, // SF046
    0x1FE_0001FE_09, // SF047
    0x1FE_0001FE_09, // SF048
    0x1FE_0001FE_09, // SF049
    0x7FE_0007FE_0B, // SF050
    0x1_000001_01, // SF051
    0x3F_00003E_06, // SF052
    0xFF_0000FE_08, // SF053
    0x2_000002_03, // SF054
    0xF_00000F_04, // SF055
    0x1_000001_01, // SF056
    0xFFE_000FFE_0C, // SF057
    0xFFE_000FFE_0C, // SF058
    0x1FFE_001FFE_0D, // SF059
    0x3FFE_003FFE_0E, // SF060
    0x3FFE_003FFE_0E, // SF061
    0x7FFE_007FFE_0F, // SF062
    0x3_000003_02, // SF063
    0xF_00000E_04, // SF064
    0x7F_00007E_07, // SF065
    0x3FF_0003FE_0A, // SF066
    0x3FFF_003FFE_0E, // SF067
    0xF_00000F_04, // SF068
    0x1_000001_01, // SF069
    0x3_000003_02, // SF070
    0x3_000003_02, // SF071
    0x3_000003_02, // SF072
    0xAA_0000AA_08, // SF073
    0x168_000168_09, // SF074
    0xF_00000F_04, // SF075
    0xF_00000F_04, // SF076
    0x3_000003_02, // SF077
    0x3_000003_02, // SF078
    0, // SF079
    0xFFE_000FFE_0C, // SF080
    0x1_000001_01, // SF081
    0x7F_00007E_07, // SF082
    0x7FF_0007FE_0B, // SF083
    0, // SF084
    0, // SF085
    0, // SF086
    0, // SF087
    0, // SF088
    0, // SF089
    0, // SF090
    0, // SF091
    0, // SF092
    0x3_000003_02, // SF093
    0x3_000003_02, // SF094
    0x3_000003_02, // SF095
    0x2_000002_03, // SF096
    0x5_000005_04, // SF097
    0x2_000002_03, // SF098
    0x3FF_0003FF_0A, // SF099
    0xFF_0000FF_08, // SF100
    0xFF_0000FF_08, // SF101
    0x1_000001_01, // SF102
    0x1_000001_01, // SF103
    0x1_000001_01, // SF104
    0x1_000001_01, // SF105
    0x1_000001_01, // SF106
    0x1_000001_01, // SF107
];

// The line of the field SF `number`; 0 where there is none.
pub fn line(number: u64) -> u64
    ensures { result ≡ packed_line number }
{
    if number < 108 {
        LINES[number as usize]
    } else {
        0
    }
}

// How many bits the field of a line has.
pub fn width(line: u64) -> u32
    ensures { result ≡ line % 256 }
{
    (line % 0x100) as u32
}

// Whether the field of a line refuses a code. Most codes are up to `most`: that comes first.
pub fn refuses(line: u64, code: u64) -> bool
    ensures { result ≡ refuses line code }
{
    line / 0x100 % 0x100_0000 < code && code != line / 0x1_0000_0000
}
