// One queue for elements of every kind, over borrowed memory, as a ring.
ghost use Rattle.std.specs.Prelude.{◌≡◌, ◌<◌, length, slice_index_or, slice_set};

use code::refusal::Refusal;
use line::ring::Ring;

// The elements that wait lie in the places of the memory that the ring has in use.
#[derive(Drop)]
pub struct Queue<'a, T> {
    memory: &'a mut [T],
    ring: Ring,
    ghost whole: { ring.size ≡ length memory.now },
}

// A full queue gives the element back.
#[derive(Clone, Copy, PartialEq, Eq, Debug)]
pub enum QueueRefusal<T> {
    Full(T),
}

impl<T> Refusal for QueueRefusal<T> {
    ghost use Rattle.reports.specs.Queues.{queue_refusal};

    ghost number_of = { λ r. (queue_refusal r).number };

    fn number(&self) -> u8 {
        match self {
            QueueRefusal::Full(_) => 21,
        }
    }
}

// Kept: a queue's methods lend its memory on to functions of the slice, which is a rule of the project.
fn store<T: Copy>(memory: &mut [T], place: usize, element: T)
    requires { place < length memory.old }
    ensures { memory.new ≡ slice_set memory.old place element }
{
    memory[place] = element;
}

fn load<T: Copy>(memory: &[T], place: usize) -> T
    requires { place < length memory.now }
    ensures { (d : _) → result ≡ slice_index_or memory.now place d }
{
    memory[place]
}

impl<'a, T: Copy> Queue<'a, T> {
    ghost use Rattle.std.specs.Prelude.{[]};
    ghost use Rattle.code.specs.Refusals.{numbered};
    ghost use Rattle.reports.specs.Queues.{memory_of, elements, room_of, queue_refusal, pushing, Pushed, Popped};

    // An empty queue, whatever the memory holds.
    pub fn over(memory: &'a mut [T]) -> Queue<'a, T>
        ensures memory { memory_of result ≡ memory.old }
        ensures empty { elements result ≡ [] }
    {
        let ring = Ring::over(memory.len());
        Queue { memory, ring }
    }

    // How many elements can still be pushed.
    pub fn room(&self) -> usize
        ensures { result ≡ room_of self.now }
    {
        self.ring.size() - self.ring.count()
    }

    // One element more at the end; a full queue declines.
    pub fn push(&mut self, element: T) -> Result<(), QueueRefusal<T>>
        ensures answer { numbered queue_refusal result ≡ pushing self.old element }
        ensures queue { Pushed self.old element result self.new }
    {
        let Some(place) = self.ring.grow() else {
            return Err(QueueRefusal::Full(element));
        };
        store(self.memory, place, element);
        Ok(())
    }

    // The first element, which leaves the queue; none where it is empty.
    pub fn pop(&mut self) -> Option<T>
        ensures { Popped self.old result self.new }
    {
        let place = self.ring.advance()?;
        Some(self.element_at(place))
    }

    fn element_at(&self, place: usize) -> T
        requires { place < length (memory_of self.now) }
        ensures { (d : _) → result ≡ slice_index_or (memory_of self.now) place d }
    {
        load(self.memory, place)
    }
}
