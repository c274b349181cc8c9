// The store of settings, exported to C.
ghost use Rattle.std.specs.Prelude.{◌≡◌};
ghost use Rattle.store.specs.Line.{role_byte};
ghost use Rattle.store.specs.Store.{write_of};
ghost use Rattle.calls.specs.Answers.{number_in};
ghost use Rattle.calls.specs.Roles.{role_of};
ghost use Rattle.ffi.specs.Settings.{told, read_run};

use crate::row::lay;
use bell103::Role;
use calls::{number_in, role_of};

// A role as a number of the C interface.
fn role_number(role: Role) -> u64
    ensures { result ≡ role_byte role }
{
    match role {
        Role::Originate => 0,
        Role::Answer => 1,
    }
}

// The settings that count in a store, and 0; or 40.
pub fn morkhetta_settings_read(buffer: &[u8], settings: &mut [u64]) -> u32
    ensures { told result settings.new ≡ read_run buffer.now settings.old }
{
    let answer = store::read(buffer);
    match answer {
        Ok(found) => {
            let s = found.settings;
            let role = role_number(s.role);
            lay(
                settings,
                &[s.rate as u64, s.station as u64, role, found.unknown as u64],
            );
            0
        }
        Err(r) => u32::from(r),
    }
}

// Writes settings into a store: 0, or 1, 2 or 41 where that is refused.
pub fn morkhetta_settings_write(buffer: &mut [u8], rate: u32, station: u16, role: u32) -> u32
    ensures value { result ≡ number_in (write_of buffer.old rate station (role_of role)).answer }
    ensures buffer_after { buffer.new ≡ (write_of buffer.old rate station (role_of role)).buffer }
{
    let answer = store::write(buffer, rate, station, role_of(role));
    number_in(answer)
}
