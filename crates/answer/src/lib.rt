// The refusals of document 01, "Answer numbers", and where a message is at fault (document 02, request 2). OK, number 0, is no refusal: what a
// call answers is an `Ok` then.
#![tactic(auto)]

ghost use Rattle.std.specs.Prelude.{◌≡◌};
ghost use Rattle.answer.specs.Number.{number_of, number_of_answer};
ghost use Rattle.answer.specs.Matched.{Matched};
ghost use Rattle.answer.specs.Place.{nowhere, sf_in, at_in};
ghost use Rattle.answer.specs.declared.Refusal.{Refusal};

#[derive(Clone, Copy)]
pub enum Refusal {
    Short,
    Preamble,
    FrameCrc,
    Length,
    MessageCrc,
    UnknownType,
    MaskEmpty,
    Field,
    Room,
    Sealed,
    Tag,
    NotOurs,
    AreaOff,
    Conflict,
    BookFull,
    Leftover,
    State,
    Form,
}

// Where an entry of a message begins, or would begin: the field's number in its document, and the bit of the payload or the entry of the sheet, both
// counted from 0.
#[derive(Clone, Copy)]
pub struct Place {
    pub sf: u64,
    pub at: usize,
}

// Why a message is refused, and where: SHORT, FIELD and MASK_EMPTY of a payload or of a sheet have a place, all other refusals none.
#[derive(Clone, Copy)]
pub struct Fault {
    pub refusal: Refusal,
    pub place: Option<Place>,
}

impl From<Refusal> for Fault {
    ghost from_gives = { λ why fault. fault ≡ nowhere why };

    // The refusal without a place.
    fn from(why: Refusal) -> Fault {
        Fault {
            refusal: why,
            place: None,
        }
    }
}

// What a call refuses with: a refusal alone, or a fault, which may have a place.
pub trait Refuses {
    ghost refusal_of: { Self → Refusal };

    fn refusal(&self) -> Refusal
        ensures { result ≡ refusal_of self.now };
}

impl Refuses for Refusal {
    ghost refusal_of = { λ why. why };

    fn refusal(&self) -> Refusal {
        *self
    }
}

impl Refuses for Fault {
    ghost refusal_of = { λ fault. fault.refusal };

    fn refusal(&self) -> Refusal {
        self.refusal
    }
}

fn number_by_refusal(refusal: Refusal) -> u8
    ensures { Matched number_of refusal result }
{
    match refusal {
        Refusal::Short => 1,
        Refusal::Preamble => 2,
        Refusal::FrameCrc => 3,
        Refusal::Length => 4,
        Refusal::MessageCrc => 5,
        Refusal::UnknownType => 6,
        Refusal::MaskEmpty => 7,
        Refusal::Field => 8,
        Refusal::Room => 9,
        Refusal::Sealed => 10,
        Refusal::Tag => 11,
        Refusal::NotOurs => 12,
        Refusal::AreaOff => 13,
        Refusal::Conflict => 14,
        Refusal::BookFull => 15,
        Refusal::Leftover => 16,
        Refusal::State => 17,
        Refusal::Form => 18,
    }
}

// The refusal's number in document 01.
pub fn number(refusal: Refusal) -> u8
    ensures { result ≡ number_of refusal }
{
    number_by_refusal(refusal)
}

// The number of a call's answer in document 01: 0 for OK, else its refusal's.
pub fn number_of<T, E: Refuses>(answer: &Result<T, E>) -> u8
    ensures { result ≡ number_of_answer E.refusal_of answer.now }
{
    match answer {
        Ok(_) => 0,
        Err(why) => number(why.refusal()),
    }
}

// The number of the field at fault; 0 where there is no place.
pub fn sf_in(place: Option<Place>) -> u64
    ensures { result ≡ sf_in place }
{
    match place {
        None => 0,
        Some(Place { sf, at: _ }) => sf,
    }
}

// The bit or the entry where its entry begins; 0 where there is no place.
pub fn at_in(place: Option<Place>) -> usize
    ensures { result ≡ at_in place }
{
    match place {
        None => 0,
        Some(Place { sf: _, at }) => at,
    }
}
