//! Tests of images as texts, and of texts as images.
mod drawn;
mod images;
