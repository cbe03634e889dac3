// Prints packets field by field, as a reader that rests on each hands its fields out, and where it stops: at the end, or at a fault with
// the paper's number. What has been handed out is noted, so that a second field is seen to be one.
#![tactic(auto)]

use field::{FieldFound, FieldStep};
use printing::{Page, Printout};
use std::io;

// A packet, and what is to be seen in it.
#[derive(Clone, Copy)]
struct Sample {
    title: &'static str,
    packet: &'static [u8],
}

const SAMPLES: [Sample; 9] = [
    Sample {
        title: "Deny #7",
        packet: b"\x83\xCC\x00\x03\x00\x00\x00\x01MCPT\x02\x02\x00\x07",
    },
    Sample {
        title: "Taken: padding, and a field that is skipped",
        packet: b"\x82\xCC\x00\x07\x00\x00\x00\x01MCPT\x04\x05test1\x00\x14\x03\x01\x02\x03\x00\x00\x00\x08\x02\x00\x02",
    },
    Sample {
        title: "no field",
        packet: b"\x80\xCC\x00\x02\x00\x00\x00\x01MCPT",
    },
    Sample {
        title: "a second field that runs past the end",
        packet: b"\x80\xCC\x00\x04\x00\x00\x00\x01MCPT\x00\x02\x05\x00\x06\x08te",
    },
    Sample {
        title: "an ID of 192",
        packet: b"\x80\xCC\x00\x04\x00\x00\x00\x01MCPT\x00\x02\x05\x00\xC0\x02\x00\x00",
    },
    Sample {
        title: "a priority twice",
        packet: b"\x80\xCC\x00\x05\x00\x00\x00\x01MCPT\x00\x02\x05\x00\x0D\x02\x00\x01\x00\x02\x09\x00",
    },
    Sample {
        title: "a priority twice, the second with a wrong length",
        packet: b"\x80\xCC\x00\x04\x00\x00\x00\x01MCPT\x00\x02\x05\x00\x00\x01\x09\x00",
    },
    Sample {
        title: "a priority twice, the second runs past the end",
        packet: b"\x80\xCC\x00\x04\x00\x00\x00\x01MCPT\x00\x02\x05\x00\x00\x03\x09\x00",
    },
    Sample {
        title: "a field that is skipped, twice",
        packet: b"\x80\xCC\x00\x04\x00\x00\x00\x01MCPT\x07\x02\x05\x00\x07\x02\x09\x00",
    },
];

// Prints what was handed out, behind the fields noted; the field behind which the walk goes on.
fn printed(page: &mut Printout, step: FieldStep, starts: &mut [usize; 16]) -> Option<FieldFound> {
    match step {
        FieldStep::Field(f) if walk::noted_field(starts, step) => {
            writeln!(
                page,
                "  ID {} from {}, length {}, then {}",
                f.id, f.start, f.len, f.next
            );
            Some(f)
        }
        FieldStep::Skipped(f) => {
            writeln!(
                page,
                "  ID {} from {}, length {}, skipped, then {}",
                f.id, f.start, f.len, f.next
            );
            Some(f)
        }
        _ => {
            match walk::ended(starts, step) {
                Ok(()) => writeln!(page, "  end"),
                Err(refusal) => writeln!(page, "  refusal {}", message::refusal_number(refusal)),
            }
            None
        }
    }
}

// A packet has fewer fields than octets, so that the walk ends of itself before the count does.
fn show(page: &mut Printout, sample: Sample) {
    writeln!(page, "{}", sample.title);
    let mut starts = [0; 16];
    let mut at = 12;
    for _ in sample.packet {
        let Some(field) = printed(page, reader::handed(sample.packet, at), &mut starts) else {
            return;
        };
        at = field.next;
    }
}

fn main(rt: HostRuntime) -> io::Result<()> {
    let mut page = Page::new(rt.stdout());
    for sample in SAMPLES {
        show(&mut page, sample);
    }
    page.close()
}
