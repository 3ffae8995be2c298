//! The fixed parts of a page.

/// Up to the heading.
pub(crate) const HEAD: &str = r#"<!doctype html>
<html lang="en">
<meta charset="utf-8">
<meta name="viewport" content="width=device-width, initial-scale=1">
<meta http-equiv="Content-Security-Policy"
 content="default-src 'none'; style-src 'unsafe-inline'; script-src 'unsafe-inline'">
<style>
body { font: 14px/1.4 system-ui, sans-serif; margin: 1.5em; color: #222; background: #fff }
h1 { font-size: 1.4em; overflow-wrap: anywhere }
h2 { font-size: 1em; margin: 1.5em 0 .4em }
table { border-collapse: collapse }
th, td { text-align: left; vertical-align: top }
th, td { padding: .15em .8em .15em 0 }
th { border-bottom: 1px solid #999; font-weight: 600; white-space: nowrap }
td { overflow-wrap: anywhere }
td:first-child { white-space: nowrap }
.error { color: #b00020; font-weight: 600 }
.warning { color: #9a5b00; font-weight: 600 }
canvas { width: 100%; max-width: 900px; height: 420px; border: 1px solid #ccc; cursor: grab }
@media (prefers-color-scheme: dark) {
body { color: #ddd; background: #1b1b1b }
canvas { border-color: #555 }
.error { color: #ff8a80 }
.warning { color: #ffc46b }
}
</style>
"#;

/// From the data on: the script of the picture. It reads the data, multiplies the transforms down
/// the scene, and draws points, lines and the edges of triangles: of all instances of the meshes as
/// many as have 400,000 corners at most, spread evenly.
pub(crate) const TAIL: &str = r#"<script>
"use strict";
(function () {
  const data = JSON.parse(document.getElementById("data").textContent);
  const canvas = document.getElementById("picture");
  const note = document.getElementById("note");
  if (data === null) return;
  const one = [1, 0, 0, 0, 0, 1, 0, 0, 0, 0, 1, 0, 0, 0, 0, 1];
  function times(a, b) {
    const m = new Array(16).fill(0);
    for (let c = 0; c < 4; c++)
      for (let r = 0; r < 4; r++)
        for (let k = 0; k < 4; k++) m[4 * c + r] += a[4 * k + r] * b[4 * c + k];
    return m;
  }
  function numbers(list, count, otherwise) {
    const good = Array.isArray(list) && list.length === count && list.every(Number.isFinite);
    return good ? list : otherwise;
  }
  function transform(node) {
    const matrix = numbers(node.matrix, 16, null);
    if (matrix) return matrix;
    const [x, y, z, w] = numbers(node.rotation, 4, [0, 0, 0, 1]);
    const t = numbers(node.translation, 3, [0, 0, 0]);
    const s = numbers(node.scale, 3, [1, 1, 1]);
    return [
      (1 - 2 * (y * y + z * z)) * s[0], 2 * (x * y + z * w) * s[0], 2 * (x * z - y * w) * s[0], 0,
      2 * (x * y - z * w) * s[1], (1 - 2 * (x * x + z * z)) * s[1], 2 * (y * z + x * w) * s[1], 0,
      2 * (x * z + y * w) * s[2], 2 * (y * z - x * w) * s[2], (1 - 2 * (x * x + y * y)) * s[2], 0,
      t[0], t[1], t[2], 1,
    ];
  }
  // The points, lines and triangles of a mesh: of each the positions of its primitive, and which of
  // these are its corners. And how many there are in all, and how many corners are here.
  function shapes(primitives) {
    const mesh = { here: [], all: 0, corners: 0 };
    for (const primitive of primitives) {
      if (!primitive) continue;
      const before = mesh.here.length;
      addShapes(primitive, mesh.here);
      mesh.all += "of" in primitive ? primitive.of : mesh.here.length - before;
    }
    for (const [, at] of mesh.here) mesh.corners += at.length;
    return mesh;
  }
  function addShapes(primitive, here) {
    const positions = new Float32Array(Uint32Array.from(primitive.positions).buffer);
    const count = positions.length / 3;
    const list = primitive.indices || Array.from({ length: count }, (_, i) => i);
    const n = list.length;
    const add = (...places) => {
      const at = places.map((i) => list[i]);
      if (at.every((i) => i < count)) here.push([positions, at]);
    };
    switch (primitive.mode) {
      case "POINTS": for (let i = 0; i < n; i++) add(i); break;
      case "LINES": for (let i = 0; i + 1 < n; i += 2) add(i, i + 1); break;
      case "LINE_LOOP": if (n > 1) add(n - 1, 0); // and the strip
      case "LINE_STRIP": for (let i = 0; i + 1 < n; i++) add(i, i + 1); break;
      case "TRIANGLES": for (let i = 0; i + 2 < n; i += 3) add(i, i + 1, i + 2); break;
      case "TRIANGLE_STRIP": for (let i = 0; i + 2 < n; i++) add(i, i + 1, i + 2); break;
      case "TRIANGLE_FAN": for (let i = 1; i + 1 < n; i++) add(0, i, i + 1); break;
    }
  }
  // The mesh of each node, with the transform.
  const meshes = data.meshes.map(shapes), instances = [], seen = new Set();
  const open = data.roots.map((node) => [node, one]);
  while (open.length) {
    const [i, above] = open.pop();
    const node = data.nodes[i];
    if (!node || seen.has(i)) continue;
    seen.add(i);
    const m = times(above, transform(node));
    for (const child of node.children) open.push([child, m]);
    if (meshes[node.mesh]) instances.push([meshes[node.mesh], m]);
  }
  // The corners of what is drawn, three numbers each: of points, of lines and of triangles. Of the
  // shapes of all instances each is picked, or where they have too many corners, evenly some.
  const drawn = [[], [], []];
  const sum = (of) => instances.reduce((n, [mesh]) => n + of(mesh), 0);
  const step = Math.max(1, sum((mesh) => mesh.corners) / 400000);
  let before = 0, picked = 0;
  for (const [mesh, m] of instances) {
    for (; Math.floor(picked * step) < before + mesh.here.length; picked++) {
      const [positions, at] = mesh.here[Math.floor(picked * step) - before], xyz = [];
      for (const i of at) {
        const [x, y, z] = [positions[3 * i], positions[3 * i + 1], positions[3 * i + 2]];
        for (let r = 0; r < 3; r++) xyz.push(m[r] * x + m[4 + r] * y + m[8 + r] * z + m[12 + r]);
      }
      if (xyz.every(Number.isFinite)) drawn[at.length - 1].push(...xyz);
    }
    before += mesh.here.length;
  }
  const all = sum((mesh) => mesh.all);
  const shown = drawn[0].length / 3 + drawn[1].length / 6 + drawn[2].length / 9;
  if (data.isPoints)
    note.textContent = `The model is large: drawn as points, ${shown} of its ${all} positions.`;
  else if (picked < all)
    note.textContent =
      `The model is large: ${shown} of its ${all} triangles, lines and points are drawn.`;
  const low = [Infinity, Infinity, Infinity], high = [-Infinity, -Infinity, -Infinity];
  for (const list of drawn)
    for (let i = 0; i < list.length; i++) {
      low[i % 3] = Math.min(low[i % 3], list[i]);
      high[i % 3] = Math.max(high[i % 3], list[i]);
    }
  if (!(low[0] <= high[0])) return;
  canvas.hidden = false;
  const middle = low.map((l, i) => (l + high[i]) / 2);
  const radius = Math.hypot(...low.map((l, i) => high[i] - l)) / 2 || 1;
  // Of the shapes each is drawn, and while the mouse turns them one of so many.
  let turn = 0.6, tilt = 0.4, zoom = 1, every = 1, isAsked = false;
  function draw() {
    isAsked = false;
    const ratio = window.devicePixelRatio || 1;
    canvas.width = canvas.clientWidth * ratio;
    canvas.height = canvas.clientHeight * ratio;
    const context = canvas.getContext("2d");
    const scale = zoom * 0.45 * Math.min(canvas.width, canvas.height) / radius;
    const [ct, st, cp, sp] = [Math.cos(turn), Math.sin(turn), Math.cos(tilt), Math.sin(tilt)];
    const [a, b, c] = middle;
    const right = (list, i) =>
      canvas.width / 2 + scale * (ct * (list[i] - a) + st * (list[i + 2] - c));
    const down = (list, i) =>
      canvas.height / 2
      - scale * (cp * (list[i + 1] - b) - sp * (ct * (list[i + 2] - c) - st * (list[i] - a)));
    context.strokeStyle = context.fillStyle = "rgb(40, 120, 200)";
    context.lineWidth = ratio * 0.7;
    // What lies close together shows through itself, so that a dense model has a shape.
    context.globalAlpha = Math.max(0.1, Math.min(1, (15000 * every) / shown));
    const [dots, ...others] = drawn;
    for (let i = 0; i < dots.length; i += 3 * every)
      context.fillRect(right(dots, i), down(dots, i), 2 * ratio, 2 * ratio);
    for (const list of others) {
      const length = list === others[0] ? 6 : 9;
      for (let i = 0, n = 1; i < list.length; i += length * every, n++) {
        if (n % 1000 === 1) context.beginPath();
        context.moveTo(right(list, i), down(list, i));
        for (let j = i + 3; j < i + length; j += 3) context.lineTo(right(list, j), down(list, j));
        if (length === 9) context.closePath();
        if (n % 1000 === 0 || i + length * every >= list.length) context.stroke();
      }
    }
  }
  function ask(some) {
    every = some;
    if (!isAsked) requestAnimationFrame(draw);
    isAsked = true;
  }
  canvas.addEventListener("pointerdown", (e) => canvas.setPointerCapture(e.pointerId));
  canvas.addEventListener("pointermove", (e) => {
    if (!(e.buttons & 1)) return;
    turn += e.movementX / 150;
    tilt = Math.max(-1.5, Math.min(1.5, tilt + e.movementY / 150));
    ask(Math.ceil(shown / 20000));
  });
  canvas.addEventListener("pointerup", () => ask(1));
  canvas.addEventListener("wheel", (e) => {
    e.preventDefault();
    zoom *= Math.exp(-e.deltaY / 500);
    ask(1);
  }, { passive: false });
  window.addEventListener("resize", () => ask(1));
  draw();
})();
</script>
</html>
"#;
