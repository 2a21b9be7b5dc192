// Writing into a lent output, from a place on. Each function answers the place behind what it wrote.
// An output and its place are two parameters: a struct that holds the lent slice needs a clause more of each function and each loop, that it stays the same slice (tried:
// without it a caller knows nothing of what its own slice holds afterwards), and functions that answer the rest of a slice need one of what the rest lends.
ghost use Rattle.std.specs.Prelude.{[], ◌∷◌, ◌+◌, ◌≤◌, ◌<◌, ◌≡◌, length};
ghost use Rattle.text.specs.Text.{decimal};
ghost use Rattle.text.specs.Row.{field_bytes, port_character, path_characters, path as shows_path};
ghost use Rattle.text.specs.Written.{Wrote};

pub fn byte(out: &mut [u8], at: usize, x: u8) -> usize
    requires { at < length out.old }
    ensures { Wrote out.old at (x ∷ []) out.new result }
{
    out[at] = x;
    at + 1
}

pub fn text(out: &mut [u8], at: usize, bytes: &[u8]) -> usize
    requires { at + length bytes.now ≤ length out.old }
    ensures { Wrote out.old at bytes.now out.new result }
{
    let end = at + bytes.len();
    out[at..end].copy_from_slice(bytes);
    end
}

fn digit(d: u32) -> u8
    requires { d < 10 }
    ensures { result ≡ 48 + d }
{
    b'0' + d as u8 // below 10: `try_from` would answer a failure that cannot come
}

// How many digits a number has, by comparing; the library's logarithm compares too, and speaks of powers where this speaks of the digits that are written.
fn digit_count(n: u32) -> usize
    ensures { result ≡ length (decimal n) }
{
    match n {
        0..=9 => 1,
        10..=99 => 2,
        100..=999 => 3,
        1000..=9999 => 4,
        10000..=99999 => 5,
        100000..=999999 => 6,
        1000000..=9999999 => 7,
        10000000..=99999999 => 8,
        100000000..=999999999 => 9,
        _ => 10,
    }
}

// A number in decimal: its last digit first, from the back. By index, since std's contracts say nothing of what is written through `iter_mut().rev()`.
pub fn decimal(out: &mut [u8], at: usize, n: u32) -> usize
    requires { at + length (decimal n) ≤ length out.old }
    ensures { Wrote out.old at (decimal n) out.new result }
{
    let end = at + digit_count(n);
    let mut left = n;
    for i in (at..end).rev() {
        out[i] = digit(left % 10);
        left /= 10;
    }
    end
}

// Listing 16: a port in a path: a digit below 10, and a letter from there on. No cube has a port above 17.
#[tactic(auto, unfolding(crate::specs::Row::port_character))]
fn port_character(port: u8) -> u8
    ensures { result ≡ port_character port }
{
    match port {
        0..=9 => b'0' + port,
        10..=17 => b'a' + (port - 10),
        _ => b'-',
    }
}

// Ports in their order, each by its character.
fn ports(out: &mut [u8], at: usize, path: &[u8]) -> usize
    requires { at + length path.now ≤ length out.old }
    ensures { Wrote out.old at (path_characters path.now) out.new result }
{
    let mut end = at;
    for port in path {
        end = byte(out, end, port_character(*port));
    }
    end
}

// A path by its ports; `-` where it has none.
pub fn path(out: &mut [u8], at: usize, path: &[u8]) -> usize
    requires { at + length (field_bytes (shows_path path.now)) ≤ length out.old }
    ensures { Wrote out.old at (field_bytes (shows_path path.now)) out.new result }
{
    if path.is_empty() {
        return byte(out, at, b'-');
    }
    ports(out, at, path)
}
