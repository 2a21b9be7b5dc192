// Reading a field as a number.
ghost use Rattle.std.specs.Prelude.{◌≡◌, ◌-◌, ◌≤◌, SomeIff};
ghost use Rattle.text.specs.Text.{field_number};
ghost use Rattle.text.specs.Written.{or_none, said};

// What a digit says.
fn digit(x: u8) -> Option<u16>
    ensures { SomeIff result ((48 ≤ x) × (x ≤ 57)) (x - 48) }
{
    match x {
        b'0'..=b'9' => Some(u16::from(x - b'0')),
        _ => None,
    }
}

// What digits say, up to 65,535.
fn digits(field: &[u8]) -> Option<u16>
    ensures { result ≡ said 0 field.now }
{
    let mut n: u16 = 0;
    for x in field {
        n = n.checked_mul(10)?.checked_add(digit(*x)?)?;
    }
    Some(n)
}

// The library's `parse` takes 01 and +1 too, and a str.
pub fn read(field: &[u8]) -> Option<u16>
    ensures { result ≡ or_none (field_number field.now) }
{
    match field {
        [b'0'] => Some(0),
        [] | [b'0', ..] => None,
        _ => digits(field),
    }
}
