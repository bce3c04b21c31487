ghost use Rattle.std.specs.Prelude.{◌≡◌, IfOk};
ghost use Rattle.zk_cli_args.specs.Moments.{moment_of, without_zulu};

use std::alloc::Global;
use zk_json::read_time;
use zk_path::NoMemory;

/// The milliseconds since 1970 of a time in UTC; `None` for any other word. It may end with `Z`, as
/// in lines.
#[tactic(auto, unfolding(crate::specs::Moments::moment_of))]
pub(crate) fn read_moment(alloc: Global, word: &str) -> Result<Option<i64>, NoMemory>
    ensures { IfOk result (λ time. time ≡ moment_of word.now) }
{
    read_time(alloc, without_zulu(word))
}

#[tactic(auto, using(crate::proofs::MomentLaws::whole))]
fn without_zulu(word: &str) -> &str
    ensures { result.now ≡ without_zulu word.now }
{
    match word.strip_suffix("Z") {
        Some(time) => time,
        None => word,
    }
}
