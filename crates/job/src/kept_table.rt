// The bytes of a table as they were before a job.
ghost use Rattle.std.specs.Prelude.{List, ◌≡◌, ℕ, length};

use layout::{Layout, Narrow, Wide};

// A layout whose tables can be kept, in an array of its length: code over both layouts has no such array, since an array's length is no constant of a type parameter.
pub trait KeptTable: Layout {
    type Kept: Drop;

    ghost kept: { Self.Kept → List ℕ };

    fn keep(t: &[u8]) -> Self::Kept
        requires { length t.now ≡ Self.LENGTH }
        ensures { kept result ≡ t.now };

    fn put_back(table: &Self::Kept, t: &mut [u8])
        requires { length t.old ≡ Self.LENGTH }
        ensures { t.new ≡ kept table.now };
}

impl KeptTable for Narrow {
    type Kept = [u8; Narrow::LENGTH];

    ghost kept = { λ table. table };

    fn keep(t: &[u8]) -> [u8; Narrow::LENGTH] {
        copy_of(t)
    }

    fn put_back(table: &[u8; Narrow::LENGTH], t: &mut [u8]) {
        t.copy_from_slice(table);
    }
}

impl KeptTable for Wide {
    type Kept = [u8; Wide::LENGTH];

    ghost kept = { λ table. table };

    fn keep(t: &[u8]) -> [u8; Wide::LENGTH] {
        copy_of(t)
    }

    fn put_back(table: &[u8; Wide::LENGTH], t: &mut [u8]) {
        t.copy_from_slice(table);
    }
}

fn copy_of<const N: usize>(t: &[u8]) -> [u8; N]
    requires { length t.now ≡ N }
    ensures { result ≡ t.now }
{
    let mut copy = [0; N];
    // All of them; with their number known the compiler copies them once, and writes no zeros before.
    copy.copy_from_slice(&t[..N]);
    copy
}
