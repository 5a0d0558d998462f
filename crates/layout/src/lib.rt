// A field of a message and its verdict on a code, as the layouts and the machines of every format have them.
#![tactic(auto)]

ghost use Rattle.std.specs.Prelude.{◌≡◌};
ghost use Rattle.layout.specs.Layout.{judge};
ghost use Rattle.layout.specs.Parts.{up_to};

use answer::Refusal;

// Its number in its document, its width in bits, and the codes it takes: the one code `extra`, and
// least to most without the one code `except`. A code below `least` is refused as `under` says, one
// above `most` as `over` says, and `except` is FIELD. `extra` comes first: a field that leaves out
// no code names it as `except` too.
#[derive(Clone, Copy)]
pub struct Field {
    pub sf: u64,
    pub width: u32,
    pub least: u64,
    pub most: u64,
    pub extra: u64,
    pub except: u64,
    pub under: Refusal,
    pub over: Refusal,
}

// What a field says of a code.
pub type Verdict = Result<(), Refusal>;

// A field that takes 0 to `most`.
pub fn up_to(sf: u64, width: u32, most: u64) -> Field
    ensures { result ≡ up_to sf width most }
{
    Field {
        sf: sf,
        width: width,
        least: 0,
        most: most,
        extra: most,
        except: most,
        under: Refusal::Field,
        over: Refusal::Field,
    }
}

// The one code `extra`, then least to most, then the one code `except`.
pub fn judge(field: Field, code: u64) -> Verdict
    ensures { result ≡ judge field code }
{
    if code == field.extra {
        return Ok(());
    }
    if code < field.least {
        let under = field.under;
        return Err(under);
    }
    if field.most < code {
        let over = field.over;
        return Err(over);
    }
    if code == field.except {
        return Err(Refusal::Field);
    }
    Ok(())
}
