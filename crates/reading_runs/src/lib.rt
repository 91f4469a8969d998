// All runs of a reading: run, recover, run on.
#![tactic(auto)]

ghost use Rattle.std.specs.Prelude.{◌*◌, ◌≤◌, length};
ghost use Rattle.read_command.specs.Reads.{Begun};
ghost use Rattle.trial.specs.Run.{RanLow};
ghost use Rattle.reading_runs.specs.Conclusion.{OverLow};
ghost use Rattle.reading_cut.specs.Cut.{Lendable, lent_areas};
ghost use Rattle.reading_runs.specs.On.{ReadsOn};

use address::Extent;
use channel::{Csw, Location};
use reading_cut::Went;
use trial::Ran;

// How a reading ends; "stopped" has its number.
#[derive(Clone, Copy)]
pub enum How {
    Ended,
    Limited,
    Stop(u8),
}

// What a reading ends with: the CSW, the number of recoveries made, and how.
#[derive(Clone, Copy)]
pub struct Over {
    pub csw: Csw,
    pub made: usize,
    pub how: How,
}

// From the first run on.
pub fn read_on(
    chain: &[u8],
    arguments: &[u8],
    image: &[u8],
    faults: &[u8],
    x: Extent,
    limit: usize,
    first: Ran,
    storage: &mut [u8],
    program: &mut [u8],
    restart_arguments: &mut [u8],
    list: &mut [u8],
) -> Over
    requires begun { Begun chain.now program.old image.now faults.now }
    requires lendable { Lendable chain.now storage.old program.old restart_arguments.old }
    requires ran_low { RanLow first }
    requires limit_bound { limit ≤ 4096 }
    requires limit_in_bounds { limit * 6 ≤ length list.old }
    ensures reads_on { let before = lent_areas storage.old program.old restart_arguments.old list.old in
        let after = lent_areas storage.new program.new restart_arguments.new list.new in
        ReadsOn chain.now arguments.now image.now faults.now x limit first before result after }
    ensures made_le_limit { result.made ≤ limit }
    ensures over_low { OverLow result }
{
    let mut ran = first;
    let mut made = 0;
    loop {
        match ran {
            Ran::Ended(e) => {
                let w = e.csw;
                return Over {
                    csw: w,
                    made: made,
                    how: How::Ended,
                };
            }
            Ran::Limited(out) => {
                let w = out.csw;
                return Over {
                    csw: w,
                    made: made,
                    how: How::Limited,
                };
            }
            Ran::Cut(k) => {
                let csw = k.csw;
                if made == limit {
                    return Over {
                        csw: csw,
                        made: made,
                        how: How::Limited,
                    };
                }
                match reading_cut::after_cut(
                    chain,
                    x,
                    k,
                    storage,
                    program,
                    restart_arguments,
                    &mut list[made * 6..],
                ) {
                    Went::Again => {
                        let m = x.model;
                        ran = trial::run_from(
                            m,
                            chain,
                            arguments,
                            program,
                            restart_arguments,
                            image,
                            faults,
                            questions::RESTART_LIMIT,
                            Location::Restart(0),
                            storage,
                        );
                        made += 1;
                    }
                    Went::Closed(w) => {
                        return Over {
                            csw: w,
                            made: made + 1,
                            how: How::Ended,
                        };
                    }
                    Went::Halted(n) => {
                        return Over {
                            csw: csw,
                            made: made,
                            how: How::Stop(n),
                        };
                    }
                }
            }
        }
    }
}
