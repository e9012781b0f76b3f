//! One store.

use crate::held::put;
use crate::notation::{CallFault, Line, Object};
use key_split::Part;
use node_model::Store;

impl Object for Store {
    fn call(&mut self, line: &mut Line) {
        match line.call() {
            "new" => put(self, Store::new(line.alloc), line),
            "apply" => {
                if let Some(part) = line.read::<Part>() {
                    line.show(self.apply(&part));
                }
            }
            _ => line.refuse(CallFault::NoSuchCall),
        }
    }
}
