// The layout, told by the library itself: a record each of whose numbers is its place in the order of declaration (the forces are 1/4 and 1/2), so that whoever declares the record again can see
// whether every field lies where it should.
ghost use Rattle.std.specs.Prelude.{◌≡◌};
ghost use Rattle.capi_answers.specs.Marks.{marks};

use adc::Adc;
use audio::Audio;
use irq::Latch;
use panel::{Enc, Keys, Pins, Ramps};
use script::Script;
use spi::Spi;
use state::{Board, Chip, Clock, Host, Panel};
use timers::{T4, T5, Tick, Tmr};
use uart::Uart;

// A record that marks its fields. It is not whole.
pub fn marked() -> Board
    ensures { result ≡ marks }
{
    let t = Tmr {
        start: 17,
        next: 18,
        con: 19,
        prd: 20,
        cnt0: 21,
        pending: 22,
    };
    let e = Enc {
        next: 79,
        pending: 80,
        state: 81,
    };
    Board {
        chip: Chip {
            clock: Clock {
                cycles: 1,
                next_due: 2,
                cycle_ticks: 3,
                room_cap: 4,
                skipped: 5,
                in_isr: 6,
                hz: 7,
                skip_idle: 8,
            },
            t4: T4 {
                base: 9,
                last_cnt_read: 10,
                con: 11,
                cnt_streak: 12,
            },
            t5: T5 {
                next: 13,
                pending: 14,
                con: 15,
                prd: 16,
            },
            tmr: [t, t, t, t],
            tick: Tick {
                start: 23,
                next: 24,
                pending: 25,
                ctl: 26,
                prd: 27,
            },
            audio: Audio {
                next: 28,
                halves: 29,
                half: 30,
                con0: 31,
                con1: 32,
                con3: 33,
                pend: 34,
                adr: 35,
                len: 36,
            },
            spi: Spi {
                spi1_done_at: 37,
                spi1_irq_at: 38,
                spi1_wire: 39,
                spi2_next: 40,
                spi1_pending: 41,
                spi2_pending: 42,
            },
            uart: Uart {
                next: 43,
                ot_next: 44,
                dropped: 45,
                con0: 46,
                rxsadr: 47,
                rxeadr: 48,
                rxcnt: 49,
                otcnt: 50,
                hrxcnt: 51,
                since: 52,
                wr: 53,
                rpnd: 54,
                otpnd: 55,
                tpnd: 56,
                irq: 57,
                place: 58,
                count: 59,
            },
            host: Host {
                usb_next: 60,
                usb_period: 61,
                wdt_at: 62,
            },
            script: Script {
                at: 63,
                place: 64,
                count: 65,
            },
            pins: Pins {
                led_last: 66,
                led_since: 67,
                led_pend: 68,
                pa_out: 69,
                ph_out: 70,
                pa_dir: 71,
                pa_pu: 72,
                pa_hd0: 73,
                pa_hd: 74,
                sr_shift: 75,
                sr_latched: 76,
                led_lines: 77,
                led_latched: 78,
            },
            enc: [e, e, e, e, e, e, e, e],
            keys: Keys { down: 82, vel: 83 },
            adc: Adc {
                con: 84,
                noise: 85,
                done: 86,
                irq: 87,
                sample: 88,
            },
            latch: Latch {
                ilat: 89,
                exc_pending: 90,
            },
        },
        panel: Panel {
            acc: [91u64; 41],
            ramps: Ramps {
                t0: [92u64; 41],
                dur: [93u32; 41],
                from: [0.25; 41],
                to: [0.5; 41],
            },
            values: [96u16; 16],
        },
    }
}
