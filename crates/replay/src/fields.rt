// The fields of a line: numbers, each after one blank.
ghost use Rattle.std.specs.Prelude.{◌<◌, ◌≤◌};

// A number, and the place behind it.
#[derive(Drop)]
pub struct Number {
    pub value: u64,
    pub next: usize,
}

// A digit's value; 16 where it is none.
pub fn digit(b: u8) -> u64
    ensures { result ≤ 16 }
{
    match b {
        b'0'..=b'9' => (b - b'0') as u64,
        b'a'..=b'f' => (b - b'a') as u64 + 10,
        _ => 16,
    }
}

fn base_of(hex: bool) -> u64
    ensures { result ≤ 16 }
{
    if hex { 16 } else { 10 }
}

// The number with one digit more.
fn longer(value: u64, hex: bool, d: u64) -> u64
    requires { (value < 1152921504606846976) × (d < 16) }
{
    if hex { value * 16 + d } else { value * 10 + d }
}

// The number from this place on, up to a blank or the end; none where anything but digits stands there.
fn digits_from(line: &[u8], from: usize, hex: bool) -> Option<Number> {
    let mut value = 0;
    let mut next = from;
    while next < line.len() && line[next] != b' ' {
        let d = digit(line[next]);
        // 60 bits leave room for four more.
        if base_of(hex) <= d || 0x1000_0000_0000_0000 <= value {
            return None;
        }
        value = longer(value, hex, d);
        next += 1;
    }
    if from == next {
        return None;
    }
    Some(Number { value, next })
}

// The blank at this place and the number behind it.
pub fn number_at(line: &[u8], at: usize, hex: bool) -> Option<Number> {
    if line.len() <= at || line[at] != b' ' {
        return None;
    }
    digits_from(line, at + 1, hex)
}

// So many numbers behind the line's letter, and nothing else: decimal but for the first where `hex` says so.
pub fn numbers_of<const N: usize>(line: &[u8], hex: bool) -> Option<[u64; N]> {
    let mut values = [0u64; N];
    let mut at = 1;
    for i in 0..N {
        let number = number_at(line, at, hex && i == 0)?;
        values[i] = number.value;
        at = number.next;
    }
    if at == line.len() { Some(values) } else { None }
}

// A number of 32 bits.
pub fn word(n: u64) -> Option<u32> {
    if n <= 0xFFFF_FFFF {
        Some(n as u32)
    } else {
        None
    }
}
