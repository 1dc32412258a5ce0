// Who is told of recognitions.
ghost use Rattle.std.specs.Prelude.{◌≡◌, ◌<◌, ℕ, length, map, All, IfOk, OnOk, OnErr};
ghost use Rattle.crs_report.specs.Listeners.{notice_of, figures_after, next_of, tell_members, members_after, StoppedAt, is_chosen, keep_members};

use crate::listener::{Listener, Next};
use crs_model::Recognition;
use std::alloc::AllocError;

/// Tells one listener.
fn tell_one(listener: &mut Box<dyn Listener>, r: &Recognition) -> Result<Next, AllocError>
    requires { 0 < length r.now.entries }
    ensures kind { kind listener.new ≡ kind listener.old }
    ensures figures { OnOk result (figures listener.new ≡ figures_after (kind listener.old) (figures listener.old) (notice_of r.now)) }
    ensures next { IfOk result (λ next. next ≡ next_of (kind listener.new) (figures listener.new)) }
    ensures err { OnErr result (figures listener.new ≡ figures listener.old) }
{
    listener.tell(r)
}

/// Tells each listener once, in order. Those that leave are dropped at once, and the others keep
/// their order. After want of memory at one listener those before it were told.
pub fn tell_all(listeners: &mut Vec<Box<dyn Listener>>, r: &Recognition) -> Result<(), AllocError>
    requires { 0 < length r.now.entries }
    ensures ok { OnOk result (map (λ b. (kind b, figures b)) listeners.new.items ≡ tell_members (notice_of r.now) (map (λ b. (kind b, figures b)) listeners.old.items)) }
    ensures err { OnErr result ((k : ℕ) × StoppedAt k (notice_of r.now) (map (λ b. (kind b, figures b)) listeners.old.items) (map (λ b. (kind b, figures b)) listeners.new.items)) }
{
    let mut i = 0;
    while i < listeners.len() {
        match tell_one(&mut listeners[i], r)? {
            Next::Stay => i += 1,
            Next::Leave => {
                listeners.remove(i);
            }
        }
    }
    Ok(())
}

/// Tells the listeners of each recognition, in order. After want of memory some of them were told of
/// some recognitions, and nothing is said of which.
pub fn tell_each(
    listeners: &mut Vec<Box<dyn Listener>>,
    recognitions: &[Recognition],
) -> Result<(), AllocError>
    requires { All (λ r. 0 < length r.entries) recognitions.now }
    ensures { OnOk result (map (λ b. (kind b, figures b)) listeners.new.items ≡ members_after (map notice_of recognitions.now) (map (λ b. (kind b, figures b)) listeners.old.items)) }
{
    for r in recognitions {
        tell_all(listeners, r)?;
    }
    Ok(())
}

/// Whether the kind is chosen.
fn is_chosen(chosen: &[bool], kind: u32) -> bool
    ensures { result ≡ is_chosen chosen.now kind }
{
    chosen.get(kind as usize).copied().unwrap_or(false)
}

/// Drops the listeners of kinds that aren't chosen, given for each kind from 0 on whether it is.
/// The others keep their order.
pub fn keep_kinds(listeners: &mut Vec<Box<dyn Listener>>, chosen: &[bool])
    ensures { map (λ b. (kind b, figures b)) listeners.new.items ≡ keep_members chosen.now (map (λ b. (kind b, figures b)) listeners.old.items) }
{
    listeners.retain(
        |listener: &Box<dyn Listener>| -> bool
            ensures { result ≡ is_chosen chosen.entry.now (kind listener.now) }
        { is_chosen(chosen, listener.kind()) },
    );
}
