// Which archive this is: its version, and the layout of the plans that it makes and takes.
ghost use Rattle.wire.specs.Read.{ok};
ghost use Rattle.answers.specs.Answers.{Answered};
ghost use Rattle.adtg_c.specs.Versions.{version, version_values};

// 10,000 times the major version, 100 times the minor one, and the patch: 0.2.0.
pub const VERSION: usize = 200;

// Changes with what the numbers of a plan mean: a plan that was kept under another layout is of no use.
pub const PLAN_LAYOUT: usize = 1;

// The version, and the layout of plans.
// Kept: (b) stores into `out`; through `tell` sixteen numbers are made on the stack as well.
#[unsafe(no_mangle)]
pub extern "C" fn adtg_version(out: &mut [u64; 16]) -> u32
    ensures { Answered version_values (ok version) result out.new }
{
    *out = [0; 16];
    out[0] = VERSION as u64;
    out[1] = PLAN_LAYOUT as u64;
    0
}
