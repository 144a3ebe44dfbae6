//! The program `fmm_large`: `fmm` for networks within the large limits. `run_within` of the crate
//! `program_run` is the whole program; `main` calls it with the real files and streams.
#![tactic(auto)]

use edge_io::StreamSink;
use match_pool::OpenGate;
use match_work::Env;
use program_frame::Outside;
use program_run::{Program, run_within};
use road_network::NetworkLimits;
use std::process::ExitCode;

fn main(rt: HostRuntime) -> ExitCode {
    let mut err = StreamSink::new(rt.stderr());
    match Outside::open(rt.alloc(), &rt, rt, rt.stdout(), &mut err) {
        Ok(mut to) => {
            let env = Env {
                rt: &rt,
                alloc: rt.alloc(),
                gate: &OpenGate,
            };
            let program = Program {
                limits: NetworkLimits::Large,
                env,
            };
            let status = run_within(&program, &to.words, &mut to.shelf, &mut to.out, &mut err);
            ExitCode::from(status)
        }
        Err(status) => ExitCode::from(status),
    }
}
