ghost use Rattle.timeline.specs.EndAll.{Tells, EndsThose};

use schedule::pending::Pending;

/// Empties the slots of the commands that are to end, and answers how many they were.
pub(crate) fn end_all<F: Fn(&Pending) -> bool>(slots: &mut [Option<Pending>], ends: F) -> usize
    requires { F.IsAlwaysCallable ends }
    ensures { (f : _) → Tells F.Fn ends f → EndsThose f slots.old result slots.new }
{
    // counted by hand: of `iter_mut`, `filter_map` with `take_if`, and `count` nothing is known of
    // how they leave the slots; `take_if` in this loop wants clauses on its closure
    let mut count = 0;
    for slot in slots.iter_mut() {
        if let Some(pending) = &*slot {
            if ends(pending) {
                *slot = None;
                count += 1;
            }
        }
    }
    count
}
