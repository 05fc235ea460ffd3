// The order in which the copies of coded bits go out: blocks of two bits, of three at the front if the count is odd.
ghost use Rattle.std.specs.Prelude.{◌≡◌, ◌*◌, ◌^◌, ◌<◌, length, Decides};
ghost use Rattle.mode.specs.Orders.{Copied, Inside, turned as turned_by, forth, Interleaves, Deinterleaves, Undoing};

use bits::BadCall;

// The place that place `i` takes in a block of `d` bits with `copies` copies each.
fn turned(d: usize, copies: usize, i: usize) -> usize
    requires some { 0 < d }
    requires fits { d * copies < 2 ^ 64 }
    requires below { i < d * copies }
    ensures { result ≡ turned_by d copies i }
{
    copies * (i % d) + i / d
}

// The input place that output place `i` takes, for `bits` bits with `copies` copies each.
fn source(copies: usize, bits: usize, i: usize) -> usize
    requires { Inside copies bits i }
    ensures { result ≡ forth copies bits i }
{
    let lead = copies * (3 * (bits % 2));
    if i < lead {
        turned(3, copies, i)
    } else {
        let block = 2 * copies;
        let j = i - lead;
        lead + (block * (j / block) + turned(2, copies, j % block))
    }
}

// Whether so many places hold `copies` copies of each of a number of bits, and not of one bit alone.
fn copied(copies: usize, places: usize) -> bool
    ensures { Decides result (Copied copies places) }
{
    copies > 0 && places % copies == 0 && places / copies != 1
}

// Writes the input, `copies` copies of each bit in a row, in the order in which it goes out.
pub fn interleave<T: Copy>(copies: usize, input: &[T], output: &mut [T]) -> Result<(), BadCall>
    ensures { Interleaves copies input.now output.old output.new result }
{
    if output.len() != input.len() || !copied(copies, input.len()) {
        return Err(BadCall);
    }
    let bits = input.len() / copies;
    for (i, place) in output.iter_mut().enumerate() {
        *place = input[source(copies, bits, i)];
    }
    Ok(())
}

// Writes the input, which is in the order in which it goes out, with the copies of each bit in a row. This undoes
// interleaving, and interleaving undoes this.
pub fn deinterleave<T: Copy>(copies: usize, input: &[T], output: &mut [T]) -> Result<(), BadCall>
    ensures undoing { Undoing T }
    ensures moves { Deinterleaves copies input.now output.old output.new result }
{
    if output.len() != input.len() || !copied(copies, input.len()) {
        return Err(BadCall);
    }
    let bits = input.len() / copies;
    for (i, x) in input.iter().enumerate() {
        output[source(copies, bits, i)] = *x;
    }
    Ok(())
}
