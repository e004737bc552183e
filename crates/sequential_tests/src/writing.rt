//! Writing figures behind a text.

use sequential::text::{write_figure, write_spaced};
use std::test::Fail;

#[test]
fn a_figure_is_written_in_base_ten(rt: HostRuntime) -> Result<(), Fail> {
    let mut text = String::from_str(rt.alloc(), "w")?;
    write_figure(&mut text, 0)?;
    assert_eq!(rt; text.as_str(), "w0");
    write_figure(&mut text, 18446744073709551615)?;
    assert_eq!(rt; text.as_str(), "w018446744073709551615");
    Ok(())
}

#[test]
fn figures_stand_behind_a_space_each(rt: HostRuntime) -> Result<(), Fail> {
    let mut text = String::from_str(rt.alloc(), "10")?;
    write_spaced(&mut text, &[1, 0, 18446744073709551615])?;
    assert_eq!(rt; text.as_str(), "10 1 0 18446744073709551615\n");
    write_spaced(&mut text, &[])?;
    assert_eq!(rt; text.as_str(), "10 1 0 18446744073709551615\n\n");
    Ok(())
}
