// What may be set over a line, and what a sheet sets.
use lines::{LinePlant, make_line};
use piles::{Ceiling, Closing};
use plant::{Law, Layer, Plant, Reason, Refusal};
use sheets::apply_sheet;

// A refusal in a layer, at a place.
fn refused(reason: Reason, layer: Layer, place: usize) -> Result<(), Refusal> {
    Err(Refusal {
        reason,
        layer,
        place,
    })
}

// Three stations in a row, two lanes between neighbours, with closings and ceilings over them.
fn pile() -> Ceiling<Closing<LinePlant>> {
    let (line, _) = make_line(3, 2, &[5, 2]);
    Ceiling::new(Closing::new(line))
}

// Position 1 of side 0 is closed, and side 1 gets a ceiling of 6; then side 3 gets one of 4.
const CLOSING_AND_CEILINGS: &[u8] = &[
    8, 0, 20, 0, 0, 0, 1, 0, 10, 0, 21, 0, 1, 0, 6, 0, 0, 0, 10, 0, 21, 0, 3, 0, 4, 0, 0, 0,
];

#[test]
fn lines_are_refused_by_their_first_fault(rt: HostRuntime) {
    let (_, verdict) = make_line(1, 9, &[1]);
    assert_eq!(rt; verdict, refused(Reason::Range, Layer::Line, 0));
    let (_, verdict) = make_line(32, 8, &[1]);
    assert_eq!(rt; verdict, refused(Reason::Size, Layer::Line, 0));
    let (_, verdict) = make_line(32, 3, &[100_001, 1, 1]);
    assert_eq!(rt; verdict, refused(Reason::TooMany, Layer::Line, 0));
    let (_, verdict) = make_line(3, 2, &[1, 100_001]);
    assert_eq!(rt; verdict, refused(Reason::Range, Layer::Line, 0));
    let (line, verdict) = make_line(3, 2, &[2, 5]);
    assert_eq!(rt; verdict, refused(Reason::Law(Law::Bends), Layer::Line, 0));
    assert_eq!(rt; Reason::Law(Law::Bends).law_number(), 3);
    assert_eq!(rt; line.stations(), 2);
    assert_eq!(rt; line.lanes(), 0);
}

#[test]
fn settings_off_the_floor_are_refused(rt: HostRuntime) {
    let mut pile = pile();
    assert_eq!(rt;
        pile.below.close(0, 2),
        refused(Reason::OffFloor, Layer::Pile, 0)
    );
    assert_eq!(rt;
        pile.set(6, 1_000_001),
        refused(Reason::OffFloor, Layer::Pile, 0)
    );
    assert_eq!(rt;
        pile.set(5, 1_000_001),
        refused(Reason::Ceiling, Layer::Pile, 0)
    );
    assert_eq!(rt; pile.cap(0, 3), Ok(7));
}

#[test]
fn a_sheet_is_set_as_a_whole(rt: HostRuntime) {
    let mut pile = pile();
    assert_eq!(rt; apply_sheet(CLOSING_AND_CEILINGS, &mut pile), Ok(()));
    assert_eq!(rt; pile.cap(0, 3), Ok(5));
    assert_eq!(rt; pile.cap(0, 2), Ok(0));
    assert_eq!(rt; pile.cap(3, 3), Ok(4));
    assert_eq!(rt; pile.cap(2, 3), Ok(7));
}

#[test]
fn a_refused_sheet_changes_nothing(rt: HostRuntime) {
    let mut pile = pile();
    // the second record closes a position that is not there
    assert_eq!(rt;
        apply_sheet(
            &[8, 0, 20, 0, 0, 0, 1, 0, 8, 0, 20, 0, 1, 0, 0, 0],
            &mut pile,
        ),
        refused(Reason::OffFloor, Layer::Pile, 8)
    );
    assert_eq!(rt;
        apply_sheet(&[10, 0, 21, 0, 0, 0, 65, 66, 15, 0], &mut pile),
        refused(Reason::Ceiling, Layer::Pile, 0)
    );
    assert_eq!(rt;
        apply_sheet(&[8, 0, 1, 0, 0, 0, 1, 0], &mut pile),
        refused(Reason::Kind, Layer::Framing, 0)
    );
    assert_eq!(rt;
        apply_sheet(&[8, 0, 20, 0, 0, 0, 1, 0, 3], &mut pile),
        refused(Reason::Framing, Layer::Framing, 8)
    );
    assert_eq!(rt;
        apply_sheet(&[7, 0, 20, 0, 0, 0, 1], &mut pile),
        refused(Reason::Size, Layer::Record, 0)
    );
    assert_eq!(rt;
        apply_sheet(&[0; 4_097], &mut pile),
        refused(Reason::TooMany, Layer::Floor, 0)
    );
    assert_eq!(rt; pile.cap(0, 3), Ok(7));
}
