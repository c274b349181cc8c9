// The detector on one energy, and a block of zero samples.
use crate::print;
use bell103::{Role, tones};
use demodulation::selftest::{Verdict, block_verdict, detector_rise};

fn rise(r: Option<u32>, updates: u32) {
    match r {
        Some(k) => {
            print::text(b"up at update ");
            print::number(k as u64);
        }
        None => {
            print::text(b"never up in ");
            print::number(updates as u64);
            print::text(b" updates");
        }
    }
}

// A fresh detector on an energy of so many tenths.
fn detector(tenths: u32, updates: u32) {
    print::text(b"detector ");
    print::number((tenths / 10) as u64);
    print::text(b".");
    print::number((tenths % 10) as u64);
    print::text(b": ");
    rise(detector_rise(tenths as f64 / 10.0, updates), updates);
    print::end_line();
}

fn role_name(role: Role) {
    match role {
        Role::Originate => {
            print::text(b"originate");
        }
        Role::Answer => {
            print::text(b"answer");
        }
    }
}

fn verdict(v: Verdict) {
    match v {
        Verdict::Going => {
            print::text(b"block not ended");
        }
        Verdict::Dominant(_, _) => {
            print::text(b"dominant");
        }
        Verdict::Not(_, _) => {
            print::text(b"not dominant");
        }
    }
}

// What an end with this role says of 256 zero samples.
fn silence(role: Role) {
    print::text(b"256 zero samples, ");
    role_name(role);
    print::text(b": ");
    let far = tones(role.listen());
    let own = tones(role);
    verdict(block_verdict(far.mark, own.mark, own.space, 0.0));
    print::end_line();
}

pub fn show() {
    detector(5, 100);
    detector(4, 100);
    detector(0, 100000);
    silence(Role::Originate);
    silence(Role::Answer);
}
