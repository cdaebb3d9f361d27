// The two comparisons, the calls on two places: every check, and then the verdict.
ghost use Rattle.std.specs.Prelude.{◌≡◌};
ghost use Rattle.table.specs.Words.{place_in};
ghost use Rattle.pooled_place.specs.Words.{IsPooledPlace};
ghost use Rattle.refusals.specs.Answers.{answer, says};
ghost use Rattle.calls.specs.Private.{mixed_fault, pair_totals};
ghost use Rattle.calls.specs.Calls.{Compared};
ghost use Rattle.calls.specs.Shares.{ComparedByShares};

use crate::totals;
use cutoff::Verdict;
use refusals::Refusal;
use shares::OBLIGORS_ON_SHARES;
use table::Totals;

// What both comparisons begin with: the totals of the tables in both places, each with a default and a survivor.
fn both_totals(first: &[u32], second: &[u32]) -> Result<(Totals, Totals), Refusal>
    requires { IsPooledPlace first.now × IsPooledPlace second.now }
    ensures { let p = place_in first.now in let q = place_in second.now in says result ≡ answer (mixed_fault p q) (pair_totals p q) }
{
    // Document 01 names the form: `let .. else` takes the totals out of each place's answer or hands back its refusal. So it is no `?`.
    let first_answer = totals(first);
    let Ok(ours) = first_answer else {
        return Err(first_answer.unwrap_err());
    };
    let second_answer = totals(second);
    let Ok(theirs) = second_answer else {
        return Err(second_answer.unwrap_err());
    };
    if ours.defaults == 0 || theirs.defaults == 0 {
        return Err(Refusal::NoDefaults);
    }
    if ours.survivors.0 == 0 || theirs.survivors.0 == 0 {
        return Err(Refusal::NoSurvivors);
    }
    Ok((ours, theirs))
}

// Which of two scales is better. Document 01 leaves open which price pairs the verdict carries, so the contract limits them: "Which pair
// is carried is free; its prices are at most 1,000,000 and its costs differ as said".
pub fn compare(first: &[u32], second: &[u32]) -> Result<Verdict, Refusal>
    requires { IsPooledPlace first.now × IsPooledPlace second.now }
    ensures { Compared (place_in first.now) (place_in second.now) (says result) }
{
    let (ours, theirs) = both_totals(first, second)?;
    if ours.defaults != theirs.defaults || ours.survivors.0 != theirs.survivors.0 {
        return Err(Refusal::UnequalTotals);
    }
    Ok(cutoff::judge(first, second))
}

// Which of two scales is better on shares. Document 02 leaves open which price pairs the verdict carries, so the contract limits them: "The
// pairs carried have prices up to 2,500,000,000".
pub fn compare_shares(first: &[u32], second: &[u32]) -> Result<Verdict, Refusal>
    requires { IsPooledPlace first.now × IsPooledPlace second.now }
    ensures { ComparedByShares (place_in first.now) (place_in second.now) (says result) }
{
    let (ours, theirs) = both_totals(first, second)?;
    if OBLIGORS_ON_SHARES < ours.obligors.0 || OBLIGORS_ON_SHARES < theirs.obligors.0 {
        return Err(Refusal::LargeTable);
    }
    Ok(shares::judge(first, ours, second, theirs))
}
