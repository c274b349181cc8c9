// The store of settings, exported to C.
ghost use Rattle.std.specs.Prelude.{◌≡◌};
ghost use Rattle.store.specs.Store.{write_of};
ghost use Rattle.calls.specs.Answers.{number_in};
ghost use Rattle.calls.specs.Roles.{role_of};
ghost use Rattle.ffi.specs.Settings.{told, read_run};

// The settings that count in a store, and 0; or 40.
#[unsafe(no_mangle)]
pub extern "C" fn morkhetta_settings_read(buffer: &[u8], settings: &mut [u64]) -> u32
    ensures { told result settings.new ≡ read_run buffer.now settings.old }
{
    ffi::settings::morkhetta_settings_read(buffer, settings)
}

// Writes settings into a store: 0, or 1, 2 or 41 where that is refused.
#[unsafe(no_mangle)]
pub extern "C" fn morkhetta_settings_write(
    buffer: &mut [u8],
    rate: u32,
    station: u16,
    role: u32,
) -> u32
    ensures value { result ≡ number_in (write_of buffer.old rate station (role_of role)).answer }
    ensures buffer_after { buffer.new ≡ (write_of buffer.old rate station (role_of role)).buffer }
{
    ffi::settings::morkhetta_settings_write(buffer, rate, station, role)
}
