// The bytes of a book written into an output that the caller lends.
#![tactic(auto)]

pub mod contents;
pub mod fields;

ghost use Rattle.std.specs.Prelude.{◌≡◌, ◌++◌, ◌+◌, ◌≤◌, length, drop};
ghost use Rattle.layout.specs.Written.{written};

// Copies all of src over the start of out; the rest of out keeps its bytes.
fn copy_front(src: &[u8], out: &mut [u8])
    requires { length src.now ≤ length out.old }
    ensures { out.new ≡ src.now ++ drop (length src.now) out.old }
{
    // By hand, since `copy_from_slice` at a length that is not known calls memmove, which the C
    // archive did not need from outside.
    for (i, byte) in src.iter().enumerate() {
        out[i] = *byte;
    }
}

// Writes all of src from an offset on: the copier is lent the output from there.
#[tactic(auto, using(crate::proofs::Writing::put_back))]
pub fn write_at(src: &[u8], out: &mut [u8], at: usize)
    requires { at + length src.now ≤ length out.old }
    ensures { out.new ≡ written out.old at src.now }
{
    copy_front(src, &mut out[at..]);
}

// Writes an array from an offset on, in one copy. Inlined, so that the copy is a store.
#[inline(always)]
pub fn write_array<const N: usize>(src: &[u8; N], out: &mut [u8], at: usize)
    requires { at + N ≤ length out.old }
    ensures { out.new ≡ written out.old at src.now }
{
    out[at..at + N].copy_from_slice(src);
}
