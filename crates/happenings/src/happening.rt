// What can happen at a step of the receiver, and its code in a lent array.
ghost use Rattle.std.specs.Prelude.{◌≡◌, length};
ghost use Rattle.happenings.specs.Happening.{byte_of, bad_stop_of, happening_of, happenings_of, TallyOf};

// In the order of a step: the detector goes down; the report changes; a byte is complete, or its stop bit is a space.
#[derive(Clone, Copy)]
pub enum Happening {
    Byte(u8),
    BadStop,
    Lost,
    Up,
    Down,
}

// What a code stands for: 0 to 255 a byte, 256 a bad stop, 257 a loss, 258 up, any other down.
#[tactic(auto, unfolding(crate::specs::Happening::happening_of))]
pub fn happening_of(code: u16) -> Happening
    ensures { result ≡ happening_of code }
{
    match code {
        0..=255 => Happening::Byte(code as u8),
        256 => Happening::BadStop,
        257 => Happening::Lost,
        258 => Happening::Up,
        _ => Happening::Down,
    }
}

fn one_byte(h: Happening) -> usize
    ensures { result ≡ length (byte_of h) }
{
    match h {
        Happening::Byte(_) => 1,
        _ => 0,
    }
}

fn one_bad_stop(h: Happening) -> usize
    ensures { result ≡ bad_stop_of h }
{
    match h {
        Happening::BadStop => 1,
        _ => 0,
    }
}

// How many bytes and how many bad stops there are.
#[derive(Clone, Copy)]
pub struct Tally {
    pub bytes: usize,
    pub bad_stops: usize,
}

// Of these codes.
pub fn tally_of(codes: &[u16]) -> Tally
    ensures { TallyOf (happenings_of codes.now) result }
{
    let mut bytes = 0;
    let mut bad_stops = 0;
    for &code in codes {
        let h = happening_of(code);
        bytes += one_byte(h);
        bad_stops += one_bad_stop(h);
    }
    Tally { bytes, bad_stops }
}
