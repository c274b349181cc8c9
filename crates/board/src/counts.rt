// The counts of the line answers.
ghost use Rattle.std.specs.Prelude.{◌≡◌, ◌≤◌, length};
ghost use Rattle.hexadecimal.specs.Hex.{total};
ghost use Rattle.tide.specs.DecoderRep.{most_count};

// All counts together.
pub fn sum_of(counts: [u64; 12]) -> u64
    requires { (length counts ≡ 12) × (total counts ≤ most_count) }
    ensures { result ≡ total counts }
{
    let mut sum = 0;
    for i in 0..12 {
        sum += counts[i];
    }
    sum
}
