// The codes of an accepted GAD payload stored by positions: its head is 19 bits and a block 47, each got at once. Internal: positions lie within what 32 blocks can
// take.
ghost use Rattle.std.specs.Prelude.{◌≡◌, ◌+◌, ◌^◌, ◌≤◌, ◌<◌};
ghost use Rattle.gad.specs.Gad as layout;
ghost use Rattle.sheet.specs.Stores.{Stores};
ghost use Rattle.sheet.specs.StoresGad.{head_on, place_on, grid_on, BlocksStored, GadStored};

// SF031 to SF033 of a block's 47 bits, whose seven codes end 39, 28, 16, 13, 10, 5 and 0 bits before its last.
fn put_place(sheet: &mut [u64], at: usize, word: u64)
    requires { at < 2 ^ 37 }
    ensures { sheet.new ≡ place_on word at sheet.old }
{
    rows::store(sheet, at, word / 549755813888 % 256);
    rows::store(sheet, at + 1, word / 268435456 % 2048);
    rows::store(sheet, at + 2, word / 65536 % 0x1000);
}

// SF034 to SF037.
fn put_grid(sheet: &mut [u64], at: usize, word: u64)
    requires { at < 2 ^ 37 }
    ensures { sheet.new ≡ grid_on word at sheet.old }
{
    rows::store(sheet, at, word / 8192 % 8);
    rows::store(sheet, at + 1, word / 1024 % 8);
    rows::store(sheet, at + 2, word / 32 % 32);
    rows::store(sheet, at + 3, word % 32);
}

fn block(payload: &[u8], sheet: &mut [u64], pos: usize, at: usize)
    requires { at < 2 ^ 36 }
    ensures { Stores payload.now layout.block pos at sheet.old (pos + 47) (at + 7) sheet.new }
{
    let word = bits::get(payload, pos, 47);
    put_place(sheet, at, word);
    put_grid(sheet, at + 3, word);
}

fn blocks(payload: &[u8], sheet: &mut [u64], n: u64)
    requires { n ≤ 32 }
    ensures { BlocksStored payload.now n sheet.old sheet.new }
{
    let mut left = n;
    let mut pos: usize = 19;
    let mut at: usize = 4;
    while 0 < left {
        block(payload, sheet, pos, at);
        pos += 47;
        at += 7;
        left -= 1;
    }
}

// SF005, SF068, SF069 and SF030 of a message's head.
fn put_head(sheet: &mut [u64], head: u64)
    ensures { sheet.new ≡ head_on head sheet.old }
{
    rows::store(sheet, 0, head / 1024 % 512);
    rows::store(sheet, 1, head / 64 % 16);
    rows::store(sheet, 2, head / 32 % 2);
    rows::store(sheet, 3, head % 32);
}

// All of a message: SF030 is the count of blocks less one.
pub fn gad(payload: &[u8], sheet: &mut [u64])
    ensures { GadStored payload.now sheet.old sheet.new }
{
    let head = bits::get(payload, 0, 19);
    put_head(sheet, head);
    blocks(payload, sheet, head % 32 + 1);
}
