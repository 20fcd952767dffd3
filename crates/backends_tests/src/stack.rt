//! Accesses through stacks of adapters.

use backends::{
    Access, Backend, MmioBackend, MmioPlace, Pair, PioBackend, PortPlace, Recorder, Script, Space,
    Window,
};
use std::test::Fail;

#[test]
fn through_the_whole_stack(rt: HostRuntime) -> Result<(), Fail> {
    let place = MmioPlace::new(0x1000, 4)?;
    let low = Window::new(place, Script::new(&[0x60, 0x41]));
    let high = Window::new(MmioPlace::new(0x2000, 1)?, Script::new(&[0x07]));
    let mut device = Recorder::new(MmioBackend::new(place, Pair::new(0x101D, low, high)));
    assert_eq!(rt; device.read(5), 0x60);
    device.write(7, 0x09);
    // no access: it is not recorded, and takes no byte
    assert_eq!(rt; device.read(8), 0xFF);
    assert_eq!(rt; device.read(0), 0x41);
    // behind the end of the script
    assert_eq!(rt; device.read(1), 0xFF);
    assert_eq!(rt; device.log().count(), 4);
    let expected = [
        Access::read(5, 0x60),
        Access::write(7, 0x09),
        Access::read(0, 0x41),
        Access::read(1, 0xFF),
    ];
    assert_eq!(rt; device.log().recorded(), &expected[..]);
    Ok(())
}

#[test]
fn above_the_boundary(rt: HostRuntime) -> Result<(), Fail> {
    let place = MmioPlace::new(0x2000, 1)?;
    let low = Window::new(MmioPlace::new(0x1000, 4)?, Script::new(&[0x60]));
    let high = Window::new(place, Script::new(&[0x07]));
    let mut device = MmioBackend::new(place, Pair::new(0x2000, low, high));
    assert_eq!(rt; device.base(), 0x2000);
    assert_eq!(rt; device.stride(), 1);
    assert_eq!(rt; device.read(3), 0x07);
    assert_eq!(rt; device.read(3), 0xFF);
    Ok(())
}

#[test]
fn registers_stand_at_their_addresses(rt: HostRuntime) -> Result<(), Fail> {
    let place = MmioPlace::new(0x1000, 4)?;
    let mut space = Window::new(place, Recorder::new(Script::new(&[1, 2, 3])));
    assert_eq!(rt; space.read(0x0FFF), 0xFF);
    assert_eq!(rt; space.read(0x1000), 1);
    assert_eq!(rt; space.read(0x1001), 0xFF);
    assert_eq!(rt; space.read(0x1014), 2);
    space.write(0x1018, 9);
    space.write(0x1019, 9);
    assert_eq!(rt; space.read(0x101C), 3);
    assert_eq!(rt; space.read(0x1020), 0xFF);
    let expected = [
        Access::read(0, 1),
        Access::read(5, 2),
        Access::write(6, 9),
        Access::read(7, 3),
    ];
    assert_eq!(rt; space.backend().log().recorded(), &expected[..]);
    Ok(())
}

#[test]
fn ports_stand_side_by_side(rt: HostRuntime) -> Result<(), Fail> {
    let place = PortPlace::new(0x3F8)?;
    let space = Window::at_ports(place, Recorder::new(Script::new(&[0x60])));
    let mut device = PioBackend::new(place, space);
    assert_eq!(rt; device.base(), 0x3F8);
    assert_eq!(rt; device.read(5), 0x60);
    device.write(7, 0x42);
    device.write(8, 0x42);
    let expected = [Access::read(5, 0x60), Access::write(7, 0x42)];
    assert_eq!(rt; device.space().backend().log().recorded(), &expected[..]);
    Ok(())
}

#[test]
fn the_highest_register_has_the_highest_address(rt: HostRuntime) -> Result<(), Fail> {
    let place = MmioPlace::new(18446744073709550719, 128)?;
    let space = Window::new(place, Script::new(&[0x60, 0x61]));
    let mut device = MmioBackend::new(place, space);
    assert_eq!(rt; device.read(7), 0x60);
    let mut space = Window::new(place, Script::new(&[0x60, 0x61]));
    assert_eq!(rt; space.read(18446744073709551615), 0x60);
    Ok(())
}
