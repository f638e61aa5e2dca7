// What each refusal tells.
use refusal::Refusal;

struct Case(Refusal, Option<u8>, usize, Option<usize>);

const CASES: [Case; 29] = [
    Case(Refusal::FaceUnreadable, Some(1), 1, None),
    Case(Refusal::PhotographUnreadable, Some(1), 2, None),
    Case(Refusal::FaceSize, Some(11), 0, None),
    Case(Refusal::FaceHead { byte: 3 }, Some(12), 3, None),
    Case(Refusal::FaceTruncated { length: 23 }, Some(13), 23, None),
    Case(Refusal::FaceLevel { byte: 4 }, Some(14), 4, None),
    Case(Refusal::FaceTemplate { byte: 16 }, Some(15), 16, None),
    Case(Refusal::FaceLength { length: 29 }, Some(16), 29, None),
    Case(Refusal::FaceWord { byte: 24 }, Some(17), 24, None),
    Case(Refusal::PhotographKind, Some(21), 0, None),
    Case(Refusal::PhotographHeader { byte: 2 }, Some(22), 2, None),
    Case(Refusal::PhotographMeasure { byte: 3 }, Some(23), 3, None),
    Case(Refusal::PhotographRaster { byte: 7 }, Some(24), 7, None),
    Case(Refusal::SheetTruncated { length: 3 }, Some(31), 3, None),
    Case(Refusal::SheetHead { byte: 2 }, Some(32), 2, None),
    Case(Refusal::SheetLength { length: 12 }, Some(33), 12, None),
    Case(Refusal::SheetSetwidth { byte: 4 }, Some(34), 4, None),
    Case(Refusal::SheetScore { byte: 5 }, Some(35), 5, None),
    Case(Refusal::SheetOrder { byte: 13 }, Some(36), 13, None),
    Case(Refusal::WindowBeyond { first: 1 }, Some(41), 1, None),
    Case(Refusal::CellsTooFew { needed: 12 }, Some(51), 12, None),
    Case(Refusal::NoCompletePath { width: 3 }, Some(52), 3, None),
    Case(Refusal::RadiusTooLarge { radius: 4 }, Some(61), 4, None),
    Case(Refusal::OtherScorer, Some(62), 0, None),
    Case(
        Refusal::ExactAboveStanding {
            column: 5,
            template: 7,
        },
        Some(63),
        5,
        Some(7),
    ),
    Case(
        Refusal::NoNode {
            column: 6,
            template: 8,
        },
        Some(64),
        6,
        Some(8),
    ),
    Case(Refusal::NotSettled, Some(71), 0, None),
    Case(Refusal::NoPathNode { number: 9 }, Some(72), 9, None),
    Case(Refusal::OutOfMemory, None, 0, None),
];

#[test]
fn number_place_and_template(rt: HostRuntime) {
    for Case(refusal, number, place, template) in &CASES {
        assert_eq!(rt;
            (refusal.number(), refusal.place(), refusal.template()),
            (*number, *place, *template)
        );
    }
}
