// Values join a batch at the end, and leave it at the front.
ghost use Rattle.std.specs.Prelude.{⊤, ◌≡◌, ◌≤◌, [], length, drop, slice_get};
ghost use Rattle.batch.specs.Items.{items, joined, put_answer};

use super::Batch;
use std::alloc::AllocError;

// By hand: none is derived for a type with a parameter and a ghost field.
impl<T: Copy, const N: usize> Clone for Batch<T, N> {
    ghost is_clone = { λ x y. y ≡ x };

    ghost is_infallible = { λ _. ⊤ };

    fn clone(&self) -> Result<Batch<T, N>, AllocError> {
        Ok(*self)
    }
}

impl<T: Copy, const N: usize> Batch<T, N> {
    // An empty batch. The blank fills its places, and nothing shows it.
    pub fn new(blank: T) -> Batch<T, N>
        ensures { items result ≡ [] }
    {
        Batch {
            places: [blank; N],
            held: 0,
        }
    }

    pub fn len(&self) -> usize
        ensures held { result ≡ length (items self.now) }
        ensures within { result ≤ N }
    {
        self.as_slice().len()
    }

    pub fn as_slice(&self) -> &[T]
        ensures { result.now ≡ items self.now }
    {
        &self.places[..self.held]
    }

    // Puts a value after the others, or hands it back where the batch is full.
    pub fn push(&mut self, x: T) -> Result<(), T>
        ensures answer { result ≡ put_answer N (items self.old) x }
        ensures held { items self.new ≡ joined N (items self.old) x }
    {
        if self.held == N {
            return Err(x);
        }
        self.places[self.held] = x;
        self.held += 1;
        Ok(())
    }

    pub fn first(&self) -> Option<T>
        ensures { result ≡ slice_get (items self.now) 0 }
    {
        self.as_slice().first().copied()
    }

    // Takes out the first value; the others move up.
    pub fn remove_first(&mut self) -> Option<T>
        ensures answer { result ≡ slice_get (items self.old) 0 }
        ensures held { items self.new ≡ drop 1 (items self.old) }
    {
        let first = self.first()?;
        self.places.rotate_left(1);
        self.held -= 1;
        Some(first)
    }
}

#[cfg(test)]
mod tests {
    use super::*;

    #[test]
    fn two_places(rt: HostRuntime) {
        let mut batch: Batch<u16, 2> = Batch::new(0);
        assert_eq!(rt; batch.remove_first(), None);
        assert_eq!(rt; batch.push(7), Ok(()));
        assert_eq!(rt; batch.push(9), Ok(()));
        assert_eq!(rt; batch.push(11), Err(11));
        assert_eq!(rt; batch.len(), 2);
        assert_eq!(rt; batch.remove_first(), Some(7));
        assert_eq!(rt; batch.first(), Some(9));
        assert!(rt; batch.as_slice() == [9].as_slice());
    }
}
