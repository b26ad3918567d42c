// What the signs of a step stand for.
use lent_replies::Fault;
use linear_transformation::LinearTransformation;
use rf_call::Givens;
use rf_channel::{ChannelSettings, ChannelState};

// The temperature: H 60 degrees, h 61, C 5, c 4, x none, N no number, I and i the infinities; 25 otherwise.
fn temperature(sign: u8) -> Option<f32> {
    match sign {
        b'H' => Some(60.0),
        b'h' => Some(61.0),
        b'C' => Some(5.0),
        b'c' => Some(4.0),
        b'x' => None,
        b'N' => Some(0.0 / 0.0),
        b'I' => Some(1.0 / 0.0),
        b'i' => Some(-1.0 / 0.0),
        _ => Some(25.0),
    }
}

// The pins: o the output overdriven, f the reflected power, q both, a the supply's alert beside the
// output. And w: the watchdog has struck.
pub fn givens(sign: u8, tick: u32) -> Givens {
    Givens {
        tick,
        alert: sign != b'a',
        output_overdrive: matches!(sign, b'o' | b'q' | b'a'),
        reflected_overdrive: matches!(sign, b'f' | b'q'),
        watchdog: sign == b'w',
        temperature: temperature(sign),
    }
}

// The first data byte: h has the input at half of its range, s at 15/16, a an alarm, b the two halves of
// an alarm that have no bit in common.
fn first(sign: u8) -> u8 {
    match sign {
        b'h' => 8,
        b's' => 15,
        b'a' => 0x11,
        b'b' => 0x5A,
        _ => 0,
    }
}

// Replies: a digit or A to E is the number of the transfer that fails, with status 1; x, y and z are a first
// transfer that fails with status 2, 128 and 255; all others are good.
fn fault(sign: u8) -> Option<Fault> {
    let (transfer, status) = match sign {
        b'0'..=b'9' => (sign - b'0', 1),
        b'A'..=b'E' => (sign - b'A' + 10, 1),
        b'x' => (0, 2),
        b'y' => (0, 128),
        b'z' => (0, 255),
        _ => return None,
    };
    Some(Fault {
        transfer: usize::from(transfer),
        status,
    })
}

pub fn replies(sign: u8) -> [u8; 999] {
    lent_replies::replies(first(sign), fault(sign))
}

// Settings: the threshold, by default 15 dBm: T 39.99, H 50, M and X 14, L -8, l -9, N no number.
fn threshold(sign: u8) -> f32 {
    match sign {
        b'T' => 39.99,
        b'H' => 50.0,
        b'M' | b'X' => 14.0,
        b'L' => -8.0,
        b'l' => -9.0,
        b'N' => 0.0 / 0.0,
        _ => 15.0,
    }
}

// The bias, by default -1 V: B -3.3, D, E and X -0.5, n no number.
fn bias(sign: u8) -> f32 {
    match sign {
        b'B' => -3.3,
        b'D' | b'E' | b'X' => -0.5,
        b'n' => 0.0 / 0.0,
        _ => -1.0,
    }
}

// The state, by default Enabled: O Off, P and D Powered.
fn state(sign: u8) -> ChannelState {
    match sign {
        b'O' => ChannelState::Off,
        b'P' | b'D' => ChannelState::Powered,
        _ => ChannelState::Enabled,
    }
}

// The slope of the reflected power, by default 32 dBm a volt: R 16, r and X 64.
fn slope(sign: u8) -> f32 {
    match sign {
        b'R' => 16.0,
        b'r' | b'X' => 64.0,
        _ => 32.0,
    }
}

// On fixed lines: the input power on 10 dBm a volt, the output power on 20 from -10, the reflected
// power from -10.
pub fn settings(sign: u8) -> ChannelSettings {
    ChannelSettings {
        output_interlock_threshold: threshold(sign),
        bias_voltage: bias(sign),
        state: state(sign),
        input_power_transform: LinearTransformation {
            slope: 10.0,
            offset: 0.0,
        },
        output_power_transform: LinearTransformation {
            slope: 20.0,
            offset: -10.0,
        },
        reflected_power_transform: LinearTransformation {
            slope: slope(sign),
            offset: -10.0,
        },
    }
}
