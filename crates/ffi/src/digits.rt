// The digit test, exported to C.
ghost use Rattle.std.specs.Prelude.{◌≡◌};
ghost use Rattle.ffi.specs.Digits.{test_run};

use hexadecimal::test_digits;

// The place of the first character that is no digit, counted from 0; how many there are, where all are digits.
pub fn morkhetta_test_digits(characters: &[u8]) -> usize
    ensures { result ≡ test_run characters.now }
{
    let answer = test_digits(characters);
    match answer {
        None => characters.len(),
        Some(place) => place,
    }
}
