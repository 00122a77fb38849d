ghost use Rattle.std.specs.Prelude.{◌≡◌, ◌<◌, ◌≤◌, List, ◌++◌, All, length, map, IfOk, OnOk};
ghost use Rattle.xdp_tool.specs.Queues.{queues_on, queues_of};
ghost use Rattle.xdp_tool.specs.QueueView.{queue_of};

use lists::List;
use std::alloc::Global;
use xdp_state::{Interface, InterfaceList};
use xio::OutOfMemory;

/// A receive queue of an interface: the interface's number and name, and the queue's number on it. Each has a processor of
/// its own.
#[derive(Clone, Copy, Debug)]
pub struct Queue<'a> {
    pub interface: u32,
    pub name: &'a [u8],
    pub queue: u32,
}

/// The queues of the interfaces, in order.
pub fn queues_of<'a>(
    alloc: Global,
    interfaces: &'a InterfaceList,
) -> Result<List<Queue<'a>>, OutOfMemory>
    requires { length interfaces.now ≤ 8 }
    ensures queues { IfOk result (λ queues. map queue_of queues ≡ queues_of interfaces.now) }
    ensures interfaces { IfOk result (λ queues. All (λ queue. queue.interface < 8) queues) }
{
    let mut queues = List::new(alloc);
    for number in 0..interfaces.len() {
        add_queues(&mut queues, number, interfaces.at(number))?;
    }
    Ok(queues)
}

/// Adds the queues of the interface of this number.
fn add_queues<'a>(
    queues: &mut List<Queue<'a>>,
    number: u32,
    interface: &'a Interface,
) -> Result<(), OutOfMemory>
    requires { number < 8 }
    ensures queues { OnOk result (map queue_of queues.new ≡ map queue_of queues.old ++ queues_on number interface.now) }
    ensures interfaces { All (λ queue. queue.interface < 8) queues.old → OnOk result (All (λ queue. queue.interface < 8) queues.new) }
{
    for queue in 0..interface.queues {
        queues.push(Queue {
            interface: number,
            name: interface.name.as_slice(),
            queue,
        })?;
    }
    Ok(())
}
