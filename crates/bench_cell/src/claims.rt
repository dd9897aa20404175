// The claims of benches.
ghost use Rattle.std.specs.Prelude.{◌≡◌, ◌++◌, IfOk, IsPermutation, IsSortedByKey, OnOk};
ghost use Rattle.std.specs.Ordering.{nat_cmp};
ghost use Rattle.bench_cell.specs.Gathering.{AreClaimsOf, claims_in};

use crate::bench::Bench;
use report_text::ClaimOf;
use std::alloc::{AllocError, Global};

/// The claims of benches, in ascending order of where they begin.
pub(crate) fn claims_of(alloc: Global, benches: &[Bench]) -> Result<Vec<ClaimOf>, AllocError>
    ensures { IfOk result (λ claims. AreClaimsOf benches.now claims.items) }
{
    let mut claims = Vec::new(alloc);
    for bench in benches {
        note_claims(&mut claims, bench)?;
    }
    sort_claims(&mut claims);
    Ok(claims)
}

// Notes the ranges of a bench, as claims of its worker.
fn note_claims(claims: &mut Vec<ClaimOf>, bench: &Bench) -> Result<(), AllocError>
    ensures { OnOk result (claims.new.items ≡ claims.old.items ++ claims_in bench.now) }
{
    let worker = bench.worker;
    for (from, to) in &bench.ranges {
        claims.push(ClaimOf {
            from: *from,
            to: *to,
            worker,
        })?;
    }
    Ok(())
}

fn sort_claims(claims: &mut Vec<ClaimOf>)
    ensures moved { IsPermutation claims.old.items claims.new.items }
    ensures sorted { IsSortedByKey (λ claim. claim.from) nat_cmp claims.new.items }
{
    claims.sort_unstable_by(|one, other| one.from.cmp(&other.from));
}
