// Framing and the deframer, exported to C.
ghost use Rattle.std.specs.Prelude.{◌≡◌, []};
ghost use Rattle.calls.specs.Frames.{frames_run, deframer_in, deframe_run};
ghost use Rattle.calls.specs.Resample.{ran};

#[unsafe(no_mangle)]
pub extern "C" fn morkhetta_frame_bytes(bytes: &[u8], bits: &mut [u8]) -> usize
    ensures { ran result [] bits.new ≡ frames_run bytes.now bits.old }
{
    ffi::frames::morkhetta_frame_bytes(bytes, bits)
}

#[unsafe(no_mangle)]
pub extern "C" fn morkhetta_deframe(
    in_frame: u32,
    bit_count: u32,
    acc: u32,
    errors: u32,
    bits: &[u8],
    answers: &mut [u64],
) -> usize
    ensures { ran result [] answers.new
        ≡ deframe_run (deframer_in in_frame bit_count acc errors) bits.now answers.old }
{
    ffi::frames::morkhetta_deframe(in_frame, bit_count, acc, errors, bits, answers)
}
