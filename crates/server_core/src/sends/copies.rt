//! Copies of what a send is made of, which may want memory.
ghost use Rattle.std.specs.Prelude.{◌≡◌, IfOk};

use crate::sends::server_send::{SendStep, ServerSend, Stage};
use dns_core::{Message, NetError, NoMemory, TryClone};
use std::alloc::Global;

/// A copy of what a send ended with.
fn copy_of_end(
    alloc: Global,
    end: &Result<Message, NetError>,
) -> Result<Result<Message, NetError>, NoMemory>
    ensures { IfOk result (λ copy. copy ≡ end.now) }
{
    match end {
        Ok(message) => {
            let message = message.try_clone(alloc)?;
            Ok(Ok(message))
        }
        Err(error) => {
            let error = error.try_clone(alloc)?;
            Ok(Err(error))
        }
    }
}

impl TryClone for SendStep {
    fn try_clone(&self, alloc: Global) -> Result<Self, NoMemory> {
        match self {
            SendStep::Order(order) => {
                let order = order.try_clone(alloc)?;
                Ok(SendStep::Order(order))
            }
            SendStep::Waiting => Ok(SendStep::Waiting),
            SendStep::Done(end) => {
                let end = copy_of_end(alloc, end)?;
                Ok(SendStep::Done(end))
            }
        }
    }
}

impl TryClone for Stage {
    fn try_clone(&self, alloc: Global) -> Result<Self, NoMemory> {
        match self {
            Stage::Ready => Ok(Stage::Ready),
            Stage::Opening {
                protocol,
                order,
                polls,
            } => Ok(Stage::Opening {
                protocol: *protocol,
                order: *order,
                polls: *polls,
            }),
            Stage::Opened { protocol, conn } => Ok(Stage::Opened {
                protocol: *protocol,
                conn: *conn,
            }),
            Stage::Asking { asked, polls } => Ok(Stage::Asking {
                asked: *asked,
                polls: *polls,
            }),
            Stage::Ended(end) => {
                let end = copy_of_end(alloc, end)?;
                Ok(Stage::Ended(end))
            }
            Stage::Over => Ok(Stage::Over),
        }
    }
}

impl TryClone for ServerSend {
    fn try_clone(&self, alloc: Global) -> Result<Self, NoMemory> {
        let request = self.request.try_clone(alloc)?;
        let stage = self.stage.try_clone(alloc)?;
        Ok(ServerSend {
            server: self.server,
            request,
            policy: self.policy,
            retried: self.retried,
            stage,
        })
    }
}
