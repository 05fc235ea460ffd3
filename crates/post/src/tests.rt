use super::*;
use delivery::{Delivered, Fault, HeaderFault, PayloadFault};
use plan::Band;
use std::test::Fail;

// What a post hears of symbols that begin with a preamble.
fn heard(post: &Post<Band>, symbols: &[u8], output: &mut [u8]) -> Result<Delivered, Fault> {
    let list = symbols.get(89..).ok_or(Fault::List(0))?;
    post.hear(list, output)
}

#[test]
fn nine_bytes_take_344_symbols(rt: HostRuntime) -> Result<(), Fail> {
    let mut post = Post::open(Band::Mhz863, 4)?;
    let mut symbols = [7u8; 344];
    let mut short = [7u8; 343];
    let psdu = [1, 2, 3, 4, 5, 6, 7, 8, 9];
    assert!(rt; post.send(0, 0, &psdu, &mut short) == Err(Fault::Buffer(344)));
    assert!(rt; short == [7u8; 343]);
    assert!(rt; post.send(0, 0, &psdu, &mut symbols) == Ok(344));
    let mut output = [9u8; 264];
    let delivered = heard(&post, &symbols, &mut output)?;
    assert!(rt;
        delivered
            == Delivered {
                rate: 0,
                burst: 0,
                seed: 0,
                bytes: 9,
                spoilt: 0,
            }
    );
    assert!(rt; output[0] == 1 && output[8] == 9 && output[9] == 9);
    Ok(())
}

#[test]
fn refusals(rt: HostRuntime) -> Result<(), Fail> {
    assert!(rt; Post::open(Band::Mhz402, 10).is_err());
    let mut post = Post::open(Band::Mhz402, 9)?;
    assert!(rt; post.retune(10) == Err(Fault::Channel));
    let mut symbols = [0u8; 4];
    assert!(rt; post.send(0, 2, &symbols, &mut []) == Err(Fault::Burst));
    assert!(rt; post.send(4, 0, &symbols, &mut []) == Err(Fault::Rate));
    assert!(rt; post.send(3, 1, &[0; 8], &mut symbols) == Err(Fault::Psdu));
    assert!(rt; post.hear(&symbols, &mut [0; 263]) == Err(Fault::Output));
    assert!(rt; post.hear(&symbols, &mut [0; 264]) == Err(Fault::List(4)));
    Ok(())
}
