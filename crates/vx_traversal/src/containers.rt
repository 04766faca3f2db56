//! Containers of a node's children.
ghost use Rattle.std.specs.Prelude.{◌≡◌, ◌++◌, ◌||◌, [], ◌∷◌, List, MatchOption, Result, IfOk, map};
ghost use Rattle.std.specs.List.{flat_map};
ghost use Rattle.std.proofs.Math.ListN.{drop};
ghost use Rattle.std.specs.Fn.{CalledAt};
ghost use Rattle.vx_traversal.specs.declared.errors.WalkError.{WalkError};
ghost use Rattle.vx_traversal.specs.declared.transform.Transformed.{Transformed};
ghost use Rattle.vx_traversal.specs.Containers.{MapsElements, left_of_each, left_of_pair};
ghost use Rattle.vx_traversal.specs.Rewrites.{CalledWith, UnlessNoMemory};
ghost use Rattle.vx_traversal.specs.ContainerShapes.{Shape, made_of};
ghost use Rattle.vx_traversal.specs.ContainerShapeLaws.{pair-kept, each-kept};
ghost use Rattle.std.proofs.Common.{ap};
ghost use Rattle.vx_traversal.specs.Visits.{InTurn};

use crate::errors::Walk;
use crate::order::TraversalOrder;
use crate::transform::Transformed;
use std::alloc::Global;
use std::rc::Rc;

/// What maps the elements of a container: a closure's calls, or those that M names.
pub trait ElementMapper<M, T> {
    type Error;

    /// Holds of a state in which an element may be mapped.
    ghost ready: { Self → Type 0 };

    /// Mapping this element in this state may answer this, and leave this state.
    ghost maps: { Self → T → Result (Transformed T) (WalkError Self.Error) → Self → Type 0 };

    fn map_one(&mut self, element: T) -> Walk<Transformed<T>, Self::Error>
        requires { ready self.old }
        ensures step { maps self.old element result self.new }
        ensures again { ready self.new };
}

/// The calls of a closure.
#[derive(Debug)]
pub struct ByCall;

impl<T, E, F: FnMut(T) -> Walk<Transformed<T>, E>> ElementMapper<ByCall, T> for F {
    type Error = E;

    ghost ready = { λ f. F.IsAlwaysCallable f };

    ghost maps = { CalledWith F.FnMut };

    fn map_one(&mut self, element: T) -> Walk<Transformed<T>, E> {
        self(element)
    }
}

/// What a container holds, as the spec sees it.
pub trait Holds<T> {
    /// The elements in order.
    ghost elements: { Self → List T };

    /// Which containers it is made of, whatever elements they hold.
    ghost shape: { Self → Shape };
}

/// A container of elements in order.
pub trait NodeContainer<'a, T: 'a>: Holds<T> + Sized + Drop {
    /// A place between two elements.
    type Cursor: Drop;

    /// The elements from a place on.
    ghost left: { Self → Self.Cursor → List T };

    /// The place before the first element.
    fn cursor() -> Self::Cursor
        ensures { (it : Self) → left it result ≡ Self.elements it };

    /// The element at the place, which moves past it; none at the end.
    fn next_element(&'a self, cursor: &mut Self::Cursor) -> Option<&'a T>
        ensures { MatchOption result (left self.entry.now cursor.old ≡ [])
            (λ element. left self.entry.now cursor.old ≡ element.now ∷ left self.entry.now cursor.new) };

    /// The container with what `f` gives for its elements: they are handed over in order until `f`
    /// answers Stop or an error, and those after a Stop stay as they are, also where `last`, the
    /// answer before them, is a Stop. The order is the last answer, or `last` without elements.
    /// The shape stays.
    fn map_elements_after<M, F: ElementMapper<M, T>>(
        self,
        alloc: Global,
        last: TraversalOrder,
        f: &mut F,
    ) -> Walk<Transformed<Self>, F::Error>
        requires { F.ready f.old }
        ensures mapped { UnlessNoMemory result (MapsElements Self.elements F.maps last f.old self result f.new) }
        ensures shaped { IfOk result (λ mapped. Self.shape mapped.value ≡ Self.shape self) }
        ensures again { F.ready f.new };

    /// Hands the elements over in order until `f` answers Stop or an error: the order is the last
    /// answer, or Continue without elements.
    final fn apply_elements<E, F: FnMut(&'a T) -> Result<TraversalOrder, E>>(
        &'a self,
        mut f: F,
    ) -> Result<TraversalOrder, E>
    where
        F: Drop,
        requires { F.IsAlwaysCallable f }
        ensures { (end : F) × InTurn (CalledAt F.FnMut) TraversalOrder.Continue f (Self.elements self.entry.now) result end }
    {
        let mut last = TraversalOrder::Continue;
        let mut cursor = Self::cursor();
        while let Some(element) = self.next_element(&mut cursor) {
            match f(element)? {
                TraversalOrder::Stop => return Ok(TraversalOrder::Stop),
                order => last = order,
            }
        }
        Ok(last)
    }

    /// The container with what `f` gives for its elements: they are handed over in order until `f`
    /// answers Stop or an error, and those after a Stop stay as they are. The order is the last
    /// answer, or Continue without elements. The shape stays.
    final fn map_elements<E, F: FnMut(T) -> Walk<Transformed<T>, E>>(
        self,
        alloc: Global,
        mut f: F,
    ) -> Walk<Transformed<Self>, E>
    where
        F: Drop,
        requires { F.IsAlwaysCallable f }
        ensures mapped { (end : F) × UnlessNoMemory result (MapsElements Self.elements (CalledWith F.FnMut) TraversalOrder.Continue f self result end) }
        ensures shaped { IfOk result (λ mapped. Self.shape mapped.value ≡ Self.shape self) }
    {
        self.map_elements_after::<ByCall, F>(alloc, TraversalOrder::Continue, &mut f)
    }
}

impl<T, C: Holds<T>> Holds<T> for Box<C> {
    ghost elements = { λ it. C.elements it.value };

    ghost shape = { λ it. C.shape it.value };
}

impl<'a, T: 'a, C: NodeContainer<'a, T> + 'a> NodeContainer<'a, T> for Box<C> {
    type Cursor = C::Cursor;

    ghost left = { λ it cursor. C.left it.value cursor };

    fn cursor() -> C::Cursor {
        C::cursor()
    }

    fn next_element(&'a self, cursor: &mut C::Cursor) -> Option<&'a T> {
        let inner: &'a C = &**self;
        inner.next_element(cursor)
    }

    fn map_elements_after<M, F: ElementMapper<M, T>>(
        self,
        alloc: Global,
        last: TraversalOrder,
        f: &mut F,
    ) -> Walk<Transformed<Self>, F::Error> {
        let inner = Box::into_inner(self);
        let mapped = inner.map_elements_after::<M, F>(alloc, last, f)?;
        let value = Box::new(alloc, mapped.value)?;
        Ok(Transformed {
            value,
            order: mapped.order,
            changed: mapped.changed,
        })
    }
}

/// A container whose clones hold equal elements in the same shape.
pub trait CloneContainer<T>: Holds<T> + Clone {
    /// A clone has the elements and the shape of its original.
    ghost clone_keeps: { (it copy : Self) → Self.is_clone it copy → (Self.elements copy ≡ Self.elements it) × (Self.shape copy ≡ Self.shape it) };
}

impl<T, C: CloneContainer<T>> CloneContainer<T> for Box<C> {
    ghost clone_keeps = { λ it copy is. C.CloneContainer.clone_keeps it.value copy.value is };
}

impl<T, C: CloneContainer<T>> CloneContainer<T> for Rc<C> {
    ghost clone_keeps = { λ it copy is. (ap C.elements is, ap C.shape is) };
}

impl<T, C: CloneContainer<T>> CloneContainer<T> for (C, C) {
    ghost clone_keeps = { λ it copy is. pair-kept C.elements C.shape C.is_clone C.CloneContainer.clone_keeps it copy is.0 is.1 };
}

impl<T, C: CloneContainer<T>> CloneContainer<T> for Vec<C> {
    ghost clone_keeps = { λ it copy is. each-kept C.elements C.shape C.is_clone C.CloneContainer.clone_keeps it.items copy.items is.0 };
}

impl<T, C: Holds<T>> Holds<T> for Rc<C> {
    ghost elements = { λ it. C.elements it.value };

    ghost shape = { λ it. C.shape it.value };
}

impl<'a, T: 'a, C: NodeContainer<'a, T> + CloneContainer<T> + 'a> NodeContainer<'a, T> for Rc<C> {
    type Cursor = C::Cursor;

    ghost left = { λ it cursor. C.left it.value cursor };

    fn cursor() -> C::Cursor {
        C::cursor()
    }

    fn next_element(&'a self, cursor: &mut C::Cursor) -> Option<&'a T> {
        let inner: &'a C = &**self;
        inner.next_element(cursor)
    }

    fn map_elements_after<M, F: ElementMapper<M, T>>(
        self,
        alloc: Global,
        last: TraversalOrder,
        f: &mut F,
    ) -> Walk<Transformed<Self>, F::Error> {
        let inner = Rc::unwrap_or_clone(self)?;
        let mapped = inner.map_elements_after::<M, F>(alloc, last, f)?;
        let value = Rc::new(alloc, mapped.value)?;
        Ok(Transformed {
            value,
            order: mapped.order,
            changed: mapped.changed,
        })
    }
}

/// A place between two elements of a pair.
#[derive(Debug, Drop)]
pub struct PairCursor<K> {
    in_second: bool,
    inner: K,
}

impl<T, C: Holds<T>> Holds<T> for (C, C) {
    ghost elements = { λ it. C.elements it.0 ++ C.elements it.1 };

    ghost shape = { λ it. made_of (C.shape it.0 ∷ C.shape it.1 ∷ []) };
}

impl<'a, T: 'a, C: NodeContainer<'a, T> + 'a> NodeContainer<'a, T> for (C, C) {
    type Cursor = PairCursor<C::Cursor>;

    ghost left = { λ it cursor. left_of_pair C.left C.elements cursor.in_second cursor.inner it.0 it.1 };

    fn cursor() -> PairCursor<C::Cursor> {
        PairCursor {
            in_second: false,
            inner: C::cursor(),
        }
    }

    fn next_element(&'a self, cursor: &mut PairCursor<C::Cursor>) -> Option<&'a T> {
        if cursor.in_second {
            return self.1.next_element(&mut cursor.inner);
        }
        if let Some(element) = self.0.next_element(&mut cursor.inner) {
            return Some(element);
        }
        cursor.in_second = true;
        cursor.inner = C::cursor();
        self.1.next_element(&mut cursor.inner)
    }

    fn map_elements_after<M, F: ElementMapper<M, T>>(
        self,
        alloc: Global,
        last: TraversalOrder,
        f: &mut F,
    ) -> Walk<Transformed<Self>, F::Error> {
        let (first, second) = self;
        let first = first.map_elements_after::<M, F>(alloc, last, f)?;
        let second = second.map_elements_after::<M, F>(alloc, first.order, f)?;
        Ok(paired(first, second))
    }
}

// The pair of two mapped parts: its order is the second's, and it is changed where one of them is.
fn paired<C>(first: Transformed<C>, second: Transformed<C>) -> Transformed<(C, C)>
    ensures { result ≡ record { value = (first.value, second.value); order = second.order; changed = first.changed || second.changed } }
{
    Transformed {
        value: (first.value, second.value),
        order: second.order,
        changed: first.changed | second.changed,
    }
}

/// A place between two elements of the containers of a vector.
#[derive(Debug, Drop)]
pub struct EachCursor<K> {
    index: usize,
    inner: K,
}

impl<T, C: Holds<T>> Holds<T> for Vec<C> {
    ghost elements = { λ it. flat_map C.elements it.items };

    ghost shape = { λ it. made_of (map C.shape it.items) };
}

impl<'a, T: 'a, C: NodeContainer<'a, T> + 'a> NodeContainer<'a, T> for Vec<C> {
    type Cursor = EachCursor<C::Cursor>;

    ghost left = { λ it cursor. left_of_each C.left C.elements cursor.inner (drop cursor.index it.items) };

    fn cursor() -> EachCursor<C::Cursor> {
        EachCursor {
            index: 0,
            inner: C::cursor(),
        }
    }

    fn next_element(&'a self, cursor: &mut EachCursor<C::Cursor>) -> Option<&'a T> {
        while cursor.index < self.len() {
            let c: &'a C = &self[cursor.index];
            if let Some(element) = c.next_element(&mut cursor.inner) {
                return Some(element);
            }
            cursor.index += 1;
            cursor.inner = C::cursor();
        }
        None
    }

    fn map_elements_after<M, F: ElementMapper<M, T>>(
        self,
        alloc: Global,
        last: TraversalOrder,
        f: &mut F,
    ) -> Walk<Transformed<Self>, F::Error> {
        let mut containers = Vec::new(alloc);
        let mut order = last;
        let mut changed = false;
        for c in self {
            let mapped = c.map_elements_after::<M, F>(alloc, order, f)?;
            containers.push(mapped.value)?;
            order = mapped.order;
            changed = changed | mapped.changed;
        }
        Ok(Transformed {
            value: containers,
            order,
            changed,
        })
    }
}

/// A container of references to containers, whose elements outlive it.
pub trait NodeRefContainer<'a, T: 'a>: Sized {
    /// A place between two elements.
    type Cursor: Drop;

    /// The elements in order.
    ghost elements: { Self → List T };

    /// The elements from a place on.
    ghost left: { Self → Self.Cursor → List T };

    /// The place before the first element.
    fn cursor() -> Self::Cursor
        ensures { (it : Self) → left it result ≡ elements it };

    /// The element at the place, which moves past it; none at the end.
    fn next_ref_element(&self, cursor: &mut Self::Cursor) -> Option<&'a T>
        ensures { MatchOption result (left self.now cursor.old ≡ []) (λ element. left self.now cursor.old ≡ element.now ∷ left self.now cursor.new) };

    /// Hands the elements over in order until `f` answers Stop or an error: the order is the last
    /// answer, or Continue without elements.
    final fn apply_ref_elements<E, F: FnMut(&'a T) -> Result<TraversalOrder, E>>(
        &self,
        mut f: F,
    ) -> Result<TraversalOrder, E>
    where
        F: Drop,
        requires { F.IsAlwaysCallable f }
        ensures { (end : F) × InTurn (CalledAt F.FnMut) TraversalOrder.Continue f (elements self.now) result end }
    {
        let mut last = TraversalOrder::Continue;
        let mut cursor = Self::cursor();
        while let Some(element) = self.next_ref_element(&mut cursor) {
            match f(element)? {
                TraversalOrder::Stop => return Ok(TraversalOrder::Stop),
                order => last = order,
            }
        }
        Ok(last)
    }
}

impl<'a, T: 'a, C: NodeContainer<'a, T> + 'a> NodeRefContainer<'a, T> for Vec<&'a C> {
    type Cursor = EachCursor<C::Cursor>;

    ghost elements = { λ it. flat_map C.elements (map (λ c. c.now) it.items) };

    ghost left = { λ it cursor. left_of_each C.left C.elements cursor.inner (drop cursor.index (map (λ c. c.now) it.items)) };

    fn cursor() -> EachCursor<C::Cursor> {
        EachCursor {
            index: 0,
            inner: C::cursor(),
        }
    }

    fn next_ref_element(&self, cursor: &mut EachCursor<C::Cursor>) -> Option<&'a T> {
        while cursor.index < self.len() {
            let c: &'a C = self[cursor.index];
            if let Some(element) = c.next_element(&mut cursor.inner) {
                return Some(element);
            }
            cursor.index += 1;
            cursor.inner = C::cursor();
        }
        None
    }
}

/// The map of a container that is its one element: what `f` gives for it, save that after a Stop
/// it stays as it is.
pub fn map_single<M, T, F: ElementMapper<M, T>>(
    element: T,
    last: TraversalOrder,
    f: &mut F,
) -> Walk<Transformed<T>, F::Error>
    requires { F.ready f.old }
    ensures mapped { UnlessNoMemory result (MapsElements (λ it. it ∷ []) F.maps last f.old element result f.new) }
    ensures again { F.ready f.new }
{
    match last {
        TraversalOrder::Stop => Ok(Transformed {
            value: element,
            order: TraversalOrder::Stop,
            changed: false,
        }),
        _ => f.map_one(element),
    }
}
