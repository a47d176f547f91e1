//! Lines that Linux prints, lines that are similar, and the reports that lists of lines make.

use ras_facts::BankReport;
use ras_klog::{KlogLine, KlogOut, KlogState, klog_line};

const STATUS: u64 = 0x8c00_0040_0001_0090;

const START: KlogLine = KlogLine::Start {
    cpu: 0,
    mcg: 0,
    bank: 7,
    status: STATUS,
};

const TSC: KlogLine = KlogLine::Tsc {
    tsc: 0x1000,
    addr: 0x1234_5040,
    misc: 0x86,
};

const PROCESSOR: KlogLine = KlogLine::Processor {
    seconds: 1_400_000_000,
};

const REPORT: BankReport = BankReport {
    boot: 1,
    seconds: 1_400_000_000,
    cpu: 0,
    bank: 7,
    tsc: 0x1000,
    cap: 0x0100_0c14,
    mcg: 0,
    status: STATUS,
    addr: 0x1234_5040,
    misc: 0x86,
};

const PARTIAL: KlogOut = KlogOut::Partial { cpu: 0, bank: 7 };

// Lines that Linux prints.
const LINES: [(&[u8], KlogLine); 7] = [
    (
        b"[ 12.5] mce: [Hardware Error]: CPU 0: Machine Check: 0 Bank 7: 8c00004000010090",
        START,
    ),
    (
        b"[ 12.5] mce: [Hardware Error]: TSC 1000 ADDR 12345040 MISC 86 ",
        TSC,
    ),
    (
        b"[ 12.5] mce: [Hardware Error]: PROCESSOR 0:306e4 TIME 1400000000 SOCKET 0 APIC 0",
        PROCESSOR,
    ),
    (
        b"[Hardware Error]: CPU 12: Machine Check Exception: 4 Bank 255: be00000000800400  ",
        KlogLine::Start {
            cpu: 12,
            mcg: 4,
            bank: 255,
            status: 0xbe00_0000_0080_0400,
        },
    ),
    (
        b"Nov  3 01:02:03 host kernel: mce: [Hardware Error]: PROCESSOR 2:a20f12 TIME 7",
        KlogLine::Processor { seconds: 7 },
    ),
    (
        b"mce: [Hardware Error]: RIP 10:<ffffffff81000000> ",
        KlogLine::Other,
    ),
    (
        b"usb 1-1: new high-speed USB device number 2",
        KlogLine::Other,
    ),
];

// Lines that are similar to them.
const NEAR: [(&[u8], KlogLine); 16] = [
    (b"", KlogLine::Other),
    (b"[Hardware Error]: ", KlogLine::Other),
    (
        b"x [Hardware Error]: TSC 1000 ADDR 12g MISC 86 ",
        KlogLine::Tsc {
            tsc: 0x1000,
            addr: 0,
            misc: 0,
        },
    ),
    (
        b"x [Hardware Error]: TSC 1000 MISC 86",
        KlogLine::Tsc {
            tsc: 0x1000,
            addr: 0,
            misc: 0x86,
        },
    ),
    (
        b"x [Hardware Error]: TSC 1000 ADDR 12 MISC",
        KlogLine::Tsc {
            tsc: 0x1000,
            addr: 0x12,
            misc: 0,
        },
    ),
    (
        b"x [Hardware Error]: TSC 1000  ADDR 12",
        KlogLine::Tsc {
            tsc: 0x1000,
            addr: 0,
            misc: 0,
        },
    ),
    (
        b"x [Hardware Error]: TSC 1000",
        KlogLine::Tsc {
            tsc: 0x1000,
            addr: 0,
            misc: 0,
        },
    ),
    (b"x [Hardware Error]: TSC g", KlogLine::Other),
    (
        b"x [Hardware Error]: TSC 1 [Hardware Error]: TSC 2",
        KlogLine::Tsc {
            tsc: 1,
            addr: 0,
            misc: 0,
        },
    ),
    (
        b"x [Hardware Error]: y [Hardware Error]: TSC 2",
        KlogLine::Other,
    ),
    (
        b"[Hardware Error]: CPU 0: Machine Check: 0 Bank 7: 8c x",
        KlogLine::Other,
    ),
    (
        b"[Hardware Error]: CPU 0: Machine Check: 0 Bank 7: 8c\r",
        KlogLine::Other,
    ),
    (
        b"[Hardware Error]: CPU 65536: Machine Check: 0 Bank 7: 8c",
        KlogLine::Other,
    ),
    (
        b"[Hardware Error]: CPU 0: Machine Check: 0 Bank 256: 8c",
        KlogLine::Other,
    ),
    (b"[Hardware Error]: PROCESSOR 0 TIME 7", KlogLine::Other),
    (b"[Hardware Error]: PROCESSOR 0:g TIME 7", KlogLine::Other),
];

// A log with a whole report, a report with two counters, one with its time before its counter, and
// one without a time. Each line is followed by what the reader returns after it.
const LOG: [(KlogLine, KlogOut); 15] = [
    (TSC, KlogOut::Nothing),
    (PROCESSOR, KlogOut::Nothing),
    (START, KlogOut::Nothing),
    (KlogLine::Other, KlogOut::Nothing),
    (TSC, KlogOut::Nothing),
    (PROCESSOR, KlogOut::Whole(REPORT)),
    (PROCESSOR, KlogOut::Nothing),
    (START, KlogOut::Nothing),
    (TSC, KlogOut::Nothing),
    (
        KlogLine::Tsc {
            tsc: 2,
            addr: 3,
            misc: 4,
        },
        KlogOut::Nothing,
    ),
    (PROCESSOR, KlogOut::Whole(REPORT)),
    (START, KlogOut::Nothing),
    (PROCESSOR, KlogOut::Nothing),
    (START, PARTIAL),
    (TSC, KlogOut::Nothing),
];

#[test]
fn reads_lines(rt: HostRuntime) {
    for (line, wanted) in LINES {
        assert_eq!(rt; klog_line(line), wanted);
    }
    for (line, wanted) in NEAR {
        assert_eq!(rt; klog_line(line), wanted);
    }
}

#[test]
fn tells_reports(rt: HostRuntime) {
    let mut state = KlogState::new();
    for (line, wanted) in LOG {
        assert_eq!(rt; state.step(line, REPORT.boot, REPORT.cap), wanted);
    }
    assert_eq!(rt; state.end(), PARTIAL);
    assert_eq!(rt; state.end(), KlogOut::Nothing);
}
