//! Lists of four and of eight lists, which keep the lists of many fields flat: each is read as the
//! pairs of its halves.
ghost use Rattle.dynamo_record.specs.Behind.{both_behind};
ghost use Rattle.dynamo_record.specs.Flat.{about_four, about_eight};

use crate::FieldList;
use dynamo_de::{Error, Reader};
use std::alloc::Global;

impl<A: FieldList, B: FieldList, C: FieldList, D: FieldList> FieldList for (A, B, C, D) {
    type Slots = ((A::Slots, B::Slots), (C::Slots, D::Slots));

    ghost about = { about_four A.about B.about C.about D.about };

    ghost holds = { ⟦<((A, B), (C, D)) as FieldList>⟧.holds };

    ghost behind = { both_behind (both_behind A.behind B.behind) (both_behind C.behind D.behind) };

    fn count() -> usize {
        <((A, B), (C, D)) as FieldList>::count()
    }

    fn unread() -> ((A::Slots, B::Slots), (C::Slots, D::Slots)) {
        <((A, B), (C, D)) as FieldList>::unread()
    }

    fn read_value<X: Reader>(
        slots: &mut ((A::Slots, B::Slots), (C::Slots, D::Slots)),
        place: usize,
        value: X,
        alloc: Global,
    ) -> Result<(), X::Error> {
        <((A, B), (C, D)) as FieldList>::read_value(slots, place, value, alloc)
    }

    fn is_read(slots: &((A::Slots, B::Slots), (C::Slots, D::Slots)), place: usize) -> bool {
        <((A, B), (C, D)) as FieldList>::is_read(slots, place)
    }

    fn complete<X: Error>(
        slots: ((A::Slots, B::Slots), (C::Slots, D::Slots)),
        names: &'static [&'static str],
        alloc: Global,
    ) -> Result<((A, B, C, D), &'static [&'static str]), X> {
        match <((A, B), (C, D)) as FieldList>::complete::<X>(slots, names, alloc) {
            Ok(completed) => {
                let (((a, b), (c, d)), names) = completed;
                Ok(((a, b, c, d), names))
            }
            Err(error) => Err(error),
        }
    }

    fn read_in_order<X: Reader>(
        elements: &mut X::Elements,
        alloc: Global,
    ) -> Result<Option<(A, B, C, D)>, X::Error> {
        match <((A, B), (C, D)) as FieldList>::read_in_order::<X>(elements, alloc) {
            Ok(Some(halves)) => {
                let ((a, b), (c, d)) = halves;
                Ok(Some((a, b, c, d)))
            }
            Ok(None) => Ok(None),
            Err(error) => Err(error),
        }
    }

    fn discard_slots(slots: ((A::Slots, B::Slots), (C::Slots, D::Slots))) {
        <((A, B), (C, D)) as FieldList>::discard_slots(slots);
    }

    fn discard(self) {
        let (a, b, c, d) = self;
        <((A, B), (C, D)) as FieldList>::discard(((a, b), (c, d)));
    }
}

impl<
    A: FieldList,
    B: FieldList,
    C: FieldList,
    D: FieldList,
    E: FieldList,
    F: FieldList,
    G: FieldList,
    H: FieldList,
> FieldList for (A, B, C, D, E, F, G, H) {
    type Slots = (
        ((A::Slots, B::Slots), (C::Slots, D::Slots)),
        ((E::Slots, F::Slots), (G::Slots, H::Slots)),
    );

    ghost about = { about_eight A.about B.about C.about D.about E.about F.about G.about H.about };

    ghost holds = { ⟦<((A, B, C, D), (E, F, G, H)) as FieldList>⟧.holds };

    ghost behind = { both_behind
        (both_behind (both_behind A.behind B.behind) (both_behind C.behind D.behind))
        (both_behind (both_behind E.behind F.behind) (both_behind G.behind H.behind)) };

    fn count() -> usize {
        <((A, B, C, D), (E, F, G, H)) as FieldList>::count()
    }

    fn unread() -> (
        ((A::Slots, B::Slots), (C::Slots, D::Slots)),
        ((E::Slots, F::Slots), (G::Slots, H::Slots)),
    ) {
        <((A, B, C, D), (E, F, G, H)) as FieldList>::unread()
    }

    fn read_value<X: Reader>(
        slots: &mut (
            ((A::Slots, B::Slots), (C::Slots, D::Slots)),
            ((E::Slots, F::Slots), (G::Slots, H::Slots)),
        ),
        place: usize,
        value: X,
        alloc: Global,
    ) -> Result<(), X::Error> {
        <((A, B, C, D), (E, F, G, H)) as FieldList>::read_value(slots, place, value, alloc)
    }

    fn is_read(
        slots: &(
            ((A::Slots, B::Slots), (C::Slots, D::Slots)),
            ((E::Slots, F::Slots), (G::Slots, H::Slots)),
        ),
        place: usize,
    ) -> bool {
        <((A, B, C, D), (E, F, G, H)) as FieldList>::is_read(slots, place)
    }

    fn complete<X: Error>(
        slots: (
            ((A::Slots, B::Slots), (C::Slots, D::Slots)),
            ((E::Slots, F::Slots), (G::Slots, H::Slots)),
        ),
        names: &'static [&'static str],
        alloc: Global,
    ) -> Result<((A, B, C, D, E, F, G, H), &'static [&'static str]), X> {
        match <((A, B, C, D), (E, F, G, H)) as FieldList>::complete::<X>(slots, names, alloc) {
            Ok(completed) => {
                let (((a, b, c, d), (e, f, g, h)), names) = completed;
                Ok(((a, b, c, d, e, f, g, h), names))
            }
            Err(error) => Err(error),
        }
    }

    fn read_in_order<X: Reader>(
        elements: &mut X::Elements,
        alloc: Global,
    ) -> Result<Option<(A, B, C, D, E, F, G, H)>, X::Error> {
        match <((A, B, C, D), (E, F, G, H)) as FieldList>::read_in_order::<X>(elements, alloc) {
            Ok(Some(halves)) => {
                let ((a, b, c, d), (e, f, g, h)) = halves;
                Ok(Some((a, b, c, d, e, f, g, h)))
            }
            Ok(None) => Ok(None),
            Err(error) => Err(error),
        }
    }

    fn discard_slots(
        slots: (
            ((A::Slots, B::Slots), (C::Slots, D::Slots)),
            ((E::Slots, F::Slots), (G::Slots, H::Slots)),
        ),
    ) {
        <((A, B, C, D), (E, F, G, H)) as FieldList>::discard_slots(slots);
    }

    fn discard(self) {
        let (a, b, c, d, e, f, g, h) = self;
        <((A, B, C, D), (E, F, G, H)) as FieldList>::discard(((a, b, c, d), (e, f, g, h)));
    }
}
