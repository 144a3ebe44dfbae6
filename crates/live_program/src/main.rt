//! The program `fmm_live`: `follow` for streams. `live` of the crate `live_pipeline` is the whole program; `main`
//! calls it with the real files and streams.
#![tactic(auto)]

use edge_io::StreamSink;
use live_pipeline::live;
use program_frame::Outside;
use std::process::ExitCode;

fn main(rt: HostRuntime) -> ExitCode {
    let mut err = StreamSink::new(rt.stderr());
    match Outside::open(rt.alloc(), &rt, rt, rt.stdout(), &mut err) {
        Ok(
            Outside {
                words,
                shelf,
                mut out,
            },
        ) => {
            let (status, _) = live(&rt, rt.alloc(), &words, shelf, &mut out, &mut err);
            ExitCode::from(status)
        }
        Err(status) => ExitCode::from(status),
    }
}
