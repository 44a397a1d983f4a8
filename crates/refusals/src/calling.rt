// The calls by their names, and a thread at the start of one.
use crate::forge::Forge;
use crate::holds::Holding;
use calls::Call;
use std::fmt;
use world::World;

// A call by its name.
#[derive(Clone, Copy)]
pub struct Named(pub Call);

impl fmt::Display for Named {
    fn fmt<W: fmt::Write>(&self, f: &mut fmt::Formatter<W>) -> fmt::Result {
        f.write_str(match self.0 {
            Call::Lock => "lock",
            Call::TryLock => "try_lock",
            Call::Unlock => "unlock",
            Call::Read => "read",
            Call::TryRead => "try_read",
            Call::ReadUnlock => "read_unlock",
            Call::Write => "write",
            Call::TryWrite => "try_write",
            Call::WriteUnlock => "write_unlock",
            Call::Downgrade => "downgrade",
            Call::CondvarWait => "Condvar wait",
            Call::NotifyOne => "notify_one",
            Call::NotifyAll => "notify_all",
            Call::OnceCall => "Once call",
            Call::OnceCallForce => "Once call ignoring poison",
            Call::OnceWait => "Once wait",
            Call::OnceWaitForce => "Once wait ignoring poison",
            Call::IsCompleted => "is_completed",
            Call::Park => "park",
            Call::Unpark => "unpark",
        })
    }
}

// A call, its object, the mutex that a Condvar wait names, and what is held.
#[derive(Clone, Copy)]
pub struct Start(pub Call, pub u8, pub Option<u8>, pub Holding);

impl Start {
    // Thread 0 stands at the start of the call.
    pub fn world(self) -> World {
        let Start(call, object, mutex, holding) = self;
        holding
            .forged()
            .stands(0, calls::start(call, object, mutex.unwrap_or(0)))
    }
}

impl fmt::Display for Start {
    fn fmt<W: fmt::Write>(&self, f: &mut fmt::Formatter<W>) -> fmt::Result {
        let Start(call, object, mutex, holding) = *self;
        write!(f, "{} on {object}", Named(call))?;
        if let Some(mutex) = mutex {
            write!(f, " with {mutex}")?;
        }
        write!(f, ", {holding}")
    }
}
