// One clear line on standard error.
use crate::words::Unclear;
use wav::Fault;

pub fn of_words(why: Unclear) {
    io::write_all(2, why.line());
}

// Standard input and output.
pub fn of_input() {
    io::write_all(2, b"listen: standard input cannot be read\n");
}

pub fn of_output() {
    io::write_all(2, b"listen: standard output cannot be written\n");
}

// Why a recording is not read, or not to its end.
pub fn of_recording(fault: Fault) {
    io::write_all(2, b"listen: ");
    io::write_all(2, reason(fault));
}

fn reason(fault: Fault) -> &'static [u8] {
    match fault {
        Fault::Riff => b"no WAV recording: it does not begin with RIFF\n",
        Fault::Wave => b"no WAV recording: RIFF, but not WAVE\n",
        Fault::HeaderCut => b"the recording ends in its header\n",
        Fault::FrameCut => b"the recording ends within a frame\n",
        Fault::DataCut => b"the recording has fewer frames than its header says\n",
        Fault::FormatSize => b"bad header: the format chunk is too short\n",
        Fault::Encoding => {
            b"bad header: the encoding is not PCM of 8, 16, 24 or 32 bits, floats of 32 or 64, mu-law or A-law\n"
        }
        Fault::Channels => b"bad header: no channel\n",
        Fault::Rate => b"bad header: the rate is not from 8000 to 48000\n",
        Fault::Align => b"bad header: a frame is not one sample for each channel\n",
        Fault::NoFormat => b"bad header: data before the format\n",
        Fault::Ragged => b"bad header: the data are no whole number of frames\n",
    }
}
