use calls::operation::Operation;

// An operation with the value 7; what the key had, and what it has then.
#[derive(Clone, Copy)]
struct Left(Operation, Option<u8>, Option<u8>);

#[test]
fn what_operations_leave(rt: HostRuntime) {
    let cases = [
        Left(Operation::Find, None, None),
        Left(Operation::Find, Some(5), Some(5)),
        Left(Operation::Insert, None, Some(7)),
        Left(Operation::Insert, Some(5), Some(5)),
        Left(Operation::Write, None, None),
        Left(Operation::Write, Some(5), Some(7)),
        Left(Operation::Replace, None, None),
        Left(Operation::Replace, Some(5), Some(7)),
        Left(Operation::Remove, None, None),
        Left(Operation::Remove, Some(5), None),
        Left(Operation::Point, None, None),
        Left(Operation::Point, Some(5), Some(5)),
    ];
    for Left(operation, before, after) in cases {
        assert_eq!(rt; operation.leaves(7, before), after);
    }
}
