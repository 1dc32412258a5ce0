ghost use Rattle.std.specs.Prelude.{◌≡◌, ℕ, ℤ, ◌≤◌, ◌<◌, pos, IfSome, IsSomeAnd, true, false, List as Items};
ghost use Rattle.crs_base.specs.declared.symbols.Sym.{Sym};
ghost use Rattle.crs_base.specs.Entry.{Entry as LogEntry};
ghost use Rattle.crs_model.specs.Matching.{Binding};
ghost use Rattle.crs_model.specs.Partial.{Partial};
ghost use Rattle.crs_model.specs.SeenModels.{body_of, window_of};
ghost use Rattle.crs_model.specs.Verdicts.{IsStretch, BodyIsBound};
ghost use Rattle.crs_model.specs.HasProgress.{IsProgress, IsInRange, IsAbove, IsLostBy};
ghost use Rattle.crs_watch.specs.Judged.{IsToldBy, IsVerdict};

use crs_model::{Body, Progress, Stretch, Verdict, Window};

/// Whether the count isn't above the most.
fn is_within(count: u32, most: Option<u32>) -> bool
    ensures yes { result ≡ true → IfSome most (λ m. count ≤ m) }
    ensures no { result ≡ false → IsSomeAnd most (λ m. m < count) }
{
    match most {
        Some(most) => count <= most,
        None => true,
    }
}

/// Whether the count is one that the window wants.
fn is_in_range(body: &Body, count: u32) -> bool
    ensures yes { result ≡ true → IsInRange (body_of body.now) count }
    ensures no { result ≡ false → IsInRange (body_of body.now) count → ⊥ }
{
    match body {
        Body::NoEvent(_) => count == 0,
        Body::Occurs { least, most, .. } => {
            if count < *least {
                return false;
            }
            is_within(count, *most)
        }
        Body::Hold { .. } => true,
    }
}

/// Whether the count is above what the window wants.
fn is_above(body: &Body, count: u32) -> bool
    ensures yes { result ≡ true → IsAbove (body_of body.now) count }
    ensures no { result ≡ false → IsAbove (body_of body.now) count → ⊥ }
{
    match body {
        Body::NoEvent(_) => count > 0,
        Body::Occurs { most, .. } => !is_within(count, *most),
        Body::Hold { .. } => false,
    }
}

/// The verdict that the progress at h tells.
fn told_by(body: &Body, to: i64, p: Progress, h: i64) -> Verdict
    ensures { IsToldBy result (body_of body.now) to h p.count p.broken }
{
    if p.broken {
        return Verdict::Lost;
    }
    if h < to {
        if is_above(body, p.count) {
            return Verdict::Lost;
        }
        return Verdict::Waiting;
    }
    if is_in_range(body, p.count) {
        Verdict::Met
    } else {
        Verdict::Lost
    }
}

/// Whether no date makes the window lost with the progress that it has: it isn't broken, and the count
/// is one that the window wants. So its dates need not be looked up.
#[inline(always)]
pub fn is_safe(window: &Window, p: Progress) -> bool
    ensures { result ≡ true → (to h : ℤ) → IsLostBy (body_of window.now.body) to h p.count p.broken → ⊥ }
{
    if p.broken {
        return false;
    }
    is_in_range(&window.body, p.count)
}

/// The verdict of a window at h, by its progress then.
pub fn judge(window: &Window, stretch: Stretch, p: Progress, h: i64) -> Verdict
    ensures told { IsToldBy result (body_of window.now.body) stretch.to h p.count p.broken }
    ensures verdict { (look : Binding Sym) (a : Partial Sym) (settled : Items (LogEntry Sym)) (n : ℕ) → h ≡ pos n → IsStretch a (window_of window.now) stretch.from stretch.to → BodyIsBound look (body_of window.now.body) → IsProgress settled look (body_of window.now.body) stretch.from stretch.to (pos n) p.count p.broken → IsVerdict result look a settled n (window_of window.now) }
{
    told_by(&window.body, stretch.to, p, h)
}
