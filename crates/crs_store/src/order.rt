ghost use Rattle.std.specs.Prelude.{◌≡◌, map};
ghost use Rattle.std.specs.List.Sorted.{IsPermutation, IsSortedBy};
ghost use Rattle.std.specs.Ordering.{is_lt};
ghost use Rattle.crs_base.specs.Seen.{entry_of};
ghost use Rattle.crs_model.specs.Order.{entries_cmp};
ghost use Rattle.crs_store.specs.Answers.{answer_cmp};

use crs_base::Entry;
use crs_model::Recognition;
use std::cmp::Ordering;
use std::rc::Rc;

/// Key by key, in event order.
fn compare_entries(these: &[Rc<Entry>], those: &[Rc<Entry>]) -> Ordering
    ensures { result ≡ entries_cmp (map (λ e. entry_of e.value) these.now) (map (λ e. entry_of e.value) those.now) }
{
    match these.split_first() {
        None => {
            if those.is_empty() {
                Ordering::Equal
            } else {
                Ordering::Less
            }
        }
        Some((this, later)) => match those.split_first() {
            None => Ordering::Greater,
            Some((that, rest)) => this.key_cmp(that).then(compare_entries(later, rest)),
        },
    }
}

#[inline(always)]
fn compare(this: &Recognition, that: &Recognition) -> Ordering
    ensures { result ≡ answer_cmp this.now that.now }
{
    compare_entries(this.entries.as_slice(), that.entries.as_slice())
}

/// Puts the recognitions in the order of the lists of their entries' keys.
pub(crate) fn put_in_order(recognitions: &mut Vec<Recognition>)
    ensures moved { IsPermutation recognitions.old.items recognitions.new.items }
    ensures sorted { IsSortedBy (λ r s. is_lt (answer_cmp r s)) recognitions.new.items }
{
    recognitions.sort_unstable_by(|this, that| compare(this, that));
}
