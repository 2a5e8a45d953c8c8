use bumpalo::Bump;
use std::alloc::Global;

/// Resets the arena. Where that is refused a new one takes its place.
pub fn give_up(bump: &mut Bump, alloc: Global) {
    if bump.reset().is_err() {
        *bump = Bump::new(alloc);
    }
}
