//! What lines come to.
ghost use Rattle.std.specs.Prelude.{◌≡◌, false};
ghost use Rattle.certifier.specs.Certificates as certificate;
ghost use Rattle.certifier.specs.Certificates.{tree_verdict, verdict_by};
ghost use Rattle.certifier.specs.Judging.{IsVerdict, is_failed};
ghost use Rattle.certifier.specs.Kept.{IsKept};
ghost use Rattle.certifier.specs.Stages.{StopsBy};
ghost use Rattle.certifier.specs.Trees.{Told};

use crate::fault::Fault;
use crate::stage::Stop;
use crate::tree::Tree;

/// What lines came to, or why that isn't known.
#[derive(Clone, Copy)]
pub(crate) enum Judged {
    /// They are a certificate of a network of so many routers and links.
    Accepted { routers: u32, links: usize },
    /// They are none: this is their first fault.
    Refused(Fault),
    /// A read failed before that was decided.
    ReadFault,
    /// All bytes that may be taken were taken before that was decided.
    TooLong,
    /// Memory was wanted.
    NoMemory,
}

/// What the lines come to up to the last one, which has this number.
fn judge_tree(number: u32, tree: &Tree) -> Judged
    ensures no_read { is_failed result ≡ false }
    ensures tells { (told : Told) → IsKept told tree.now → IsVerdict result (tree_verdict number told) }
{
    match tree.verdict(number) {
        Some(fault) => Judged::Refused(fault),
        None => {
            let net = tree.sheet().net();
            Judged::Accepted {
                routers: net.routers(),
                links: net.links().len(),
            }
        }
    }
}

/// What the lines come to where the line of this number stops them.
pub(crate) fn judge_stop(number: u32, stop: Stop) -> Judged
    ensures no_read { is_failed result ≡ false }
    ensures tells { (taken : certificate.Taken) (on : certificate.Stage → certificate.Verdict)
        → StopsBy stop taken → IsVerdict result (verdict_by taken number on) }
{
    match stop {
        Stop::Ended(tree) => judge_tree(number, &tree),
        Stop::Faulty(fault) => Judged::Refused(fault),
        Stop::NoMemory => Judged::NoMemory,
    }
}
