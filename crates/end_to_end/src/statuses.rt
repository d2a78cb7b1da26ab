// The number of each status, which the program exits with.
use bridge_cli::Status;

#[test]
fn each_status_has_its_number(rt: HostRuntime) {
    let numbers = [
        (Status::Done, 0),
        (Status::Refused, 1),
        (Status::Usage, 2),
        (Status::ReadFault, 3),
        (Status::WriteFault, 4),
        (Status::SlotFault, 5),
        (Status::StateBad, 6),
        (Status::Memory, 7),
        (Status::Mismatch, 8),
    ];
    for (status, number) in numbers {
        assert_eq!(rt; status.code(), number);
    }
}
