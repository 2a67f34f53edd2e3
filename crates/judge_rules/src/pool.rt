//! Whether every buffer is home.
ghost use Rattle.std.specs.Prelude.{◌≡◌, Some, reverse, option_to_list};
ghost use Rattle.std.specs.List.{list_all, range_with_len};
ghost use Rattle.trace_model.specs.Configuration.{numbers_of};
ghost use Rattle.trace_model.specs.Place.{Pool, place, is_at, all_in_pool};

use cam_types::Made;
use judge_filters::configuration::made;
use judge_filters::place::is_in_pool;
use trace_model::Entry;

/// Whether the buffers made for one stream are in the pool.
fn are_in_pool(entries: &[Entry], made: Made) -> bool
    ensures { result ≡
        list_all (λ b. is_at (place b (reverse entries.now)) Pool) (range_with_len made.first.0 made.count) }
{
    let first = u64::from(made.first.0);
    let end = first + u64::from(made.count);
    (first..end).all(|number| is_in_pool(entries, number))
}

fn are_any_in_pool(entries: &[Entry], made: Option<Made>) -> bool
    ensures { result ≡
        list_all (λ m. list_all (λ b. is_at (place b (reverse entries.now)) Pool) (numbers_of (Some m)))
        (option_to_list made) }
{
    match made {
        Some(made) => are_in_pool(entries, made),
        None => true,
    }
}

/// Whether every buffer of the configuration is in the pool.
#[tactic(auto, using(judge_entries::proofs::General::four_all))]
pub fn all_in_pool(entries: &[Entry]) -> bool
    ensures { result ≡ all_in_pool (reverse entries.now) }
{
    let each = made(entries);
    are_any_in_pool(entries, each.a)
        && (are_any_in_pool(entries, each.b)
            && (are_any_in_pool(entries, each.c) && are_any_in_pool(entries, each.d)))
}
