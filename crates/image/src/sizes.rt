// Offsets and sizes of the layout, in bytes: those of specs/Layout.antt. The proofs fail where one is not.
pub const SERVER_SIZE: usize = 29;

pub const TASK_SIZE: usize = 46;

pub const RESOURCE_SIZE: usize = 37;

pub const SERVERS_OFFSET: usize = 10;

pub const TASKS_OFFSET: usize = SERVERS_OFFSET + 16 * SERVER_SIZE;

pub const RESOURCES_OFFSET: usize = TASKS_OFFSET + 16 * TASK_SIZE;

pub const IMAGE_SIZE: usize = RESOURCES_OFFSET + 16 * RESOURCE_SIZE;
